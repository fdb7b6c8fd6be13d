// What every measure offers, and the laws that it shows.
ghost use Rattle.std.specs.Prelude.{◌≡◌};
ghost use Rattle.measures.specs.Measured.{Laws};

use frames::Frame;

// A measure: a value for each frame, a joining of values, and a neutral value.
pub trait Measure<K: Frame>: Copy + Drop {
    // The value of one frame.
    ghost worth: { K → Self };

    // The value of one stretch and then another, by theirs.
    ghost joined: { Self → Self → Self };

    // The value of no frame.
    ghost neutral: { Self };

    // The value of one frame.
    fn of(frame: K) -> Self
        ensures { result ≡ worth frame };

    // The value of no frame.
    fn none() -> Self
        ensures { result ≡ neutral };

    // The value of a stretch of value `self` and then one of value `other`.
    fn join(self, other: Self) -> Self
        ensures { result ≡ joined self other };

    // The joining is associative, and the neutral value changes nothing.
    ghost laws: { Laws joined neutral };
}
