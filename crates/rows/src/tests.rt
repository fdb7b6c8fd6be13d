// Rows, cutting and mending on examples: inside blocks and at borders, and with lengths that add up past 64 bits.
use crate::{Entry, Piece, Row, mend, new_blocks, pieces_of};
use std::alloc::AllocError;
use std::process::Abort;
use std::test::Fail;

const LONGEST: usize = usize::MAX;
// Half of 2^64.
const HALF: usize = 0x8000_0000_0000_0000;

// Fails where other pieces came out, or none.
fn gives(
    rt: &impl Abort,
    pieces: Result<Vec<Piece>, AllocError>,
    into: &[Piece],
) -> Result<(), Fail> {
    assert_eq!(rt; pieces?.as_slice(), into);
    Ok(())
}

#[test]
fn worked_cases(rt: HostRuntime) -> Result<(), Fail> {
    let old = Piece::whole(7, 8);
    let [one, four, five, seven, eight] = [
        Piece::loose(1),
        Piece::loose(4),
        Piece::loose(5),
        Piece::loose(7),
        Piece::loose(8),
    ];
    gives(
        &rt,
        mend(rt.alloc(), 8, &[old, one, eight, seven]),
        &[four, five, eight, seven],
    )?;
    gives(
        &rt,
        mend(rt.alloc(), 8, &[old, one, old]),
        &[four, five, old],
    )?;
    assert_eq!(rt; new_blocks(&[four, five, old]), 2);
    Ok(())
}

#[test]
fn past_64_bits(rt: HostRuntime) -> Result<(), Fail> {
    let long = Piece::whole(7, LONGEST);
    let half = Piece::loose(HALF);
    gives(&rt, mend(rt.alloc(), 8, &[long, long]), &[long, long])?;
    gives(
        &rt,
        mend(rt.alloc(), 8, &[Piece::loose(1), long]),
        &[half, half],
    )?;
    gives(
        &rt,
        mend(rt.alloc(), LONGEST, &[long, Piece::loose(1)]),
        &[half, half],
    )?;
    let entry = Entry {
        block: 7,
        len: LONGEST,
    };
    gives(
        &rt,
        pieces_of(rt.alloc(), &[entry, entry], 0..LONGEST),
        &[long],
    )?;
    gives(
        &rt,
        pieces_of(rt.alloc(), &[entry, entry], 1..LONGEST),
        &[Piece::loose(LONGEST - 1)],
    )
}

#[test]
fn inside_and_at_borders(rt: HostRuntime) -> Result<(), Fail> {
    let row = [
        Entry { block: 1, len: 5 },
        Entry { block: 2, len: 6 },
        Entry { block: 3, len: 7 },
    ];
    let middle = Piece::whole(2, 6);
    gives(
        &rt,
        pieces_of(rt.alloc(), &row, 2..13),
        &[Piece::loose(3), middle, Piece::loose(2)],
    )?;
    gives(
        &rt,
        pieces_of(rt.alloc(), &row, 0..5),
        &[Piece::whole(1, 5)],
    )?;
    gives(
        &rt,
        pieces_of(rt.alloc(), &row, 5..18),
        &[middle, Piece::whole(3, 7)],
    )?;
    gives(&rt, pieces_of(rt.alloc(), &row, 5..5), &[])
}

#[test]
fn at_most_64_entries(rt: HostRuntime) -> Result<(), Fail> {
    let entry = Entry {
        block: 7,
        len: LONGEST,
    };
    let full = vec![in rt.alloc(); entry; 64]?;
    let over = vec![in rt.alloc(); entry; 65]?;
    assert!(rt; Row::try_from(over).is_err());
    let row = Row::try_from(full)?;
    assert!(rt; row.entries().len() == 64);
    assert_eq!(rt; row.len(), LONGEST);
    Ok(())
}
