// The energy as a measure: joining adds, up to the stop.
ghost use Rattle.measures.specs.Energies.{capped_energy, added};
ghost use Rattle.measures.specs.Laws.{energy_laws};

use crate::energy::Energy;
use crate::measure::Measure;
use frames::Frame;

#[tactic(auto, using(crate::specs::Same::same_energy))]
impl<K: Frame> Measure<K> for Energy {
    ghost worth = { λ x. capped_energy (K.Frame.power x) };

    ghost joined = { added };

    ghost neutral = { capped_energy 0 };

    ghost laws = { energy_laws };

    fn of(frame: K) -> Energy {
        Energy::new(u64::from(frame.energy()))
    }

    fn none() -> Energy {
        Energy::new(0)
    }

    fn join(self, other: Energy) -> Energy {
        Energy::new(self.sum + other.sum)
    }
}
