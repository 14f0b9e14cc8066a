// Alternation: two codes of one make in turn.
ghost use Rattle.std.specs.Prelude.{◌≡◌};
ghost use Rattle.layers.specs.Layers.{alike, in_use, alternating};
ghost use Rattle.layers.specs.LayerLaws.{alternating_lawful};

use faults::Fault;
use linecode::lines::LineCode;

// Even positions use the first code, odd positions the second.
// Two codes of different make, which differ in bits or chips per group, do not alternate: the first is used alone.
#[derive(Clone, Copy)]
pub struct Alternating<A> {
    pub even: A,
    pub odd: A,
}

impl<A: LineCode> Alternating<A> {
    fn is_alike(&self) -> bool
        ensures { result ≡ alike (A.LineCode.code self.now.even) (A.LineCode.code self.now.odd) }
    {
        self.even.bits_per_group() == self.odd.bits_per_group()
            && self.even.chips_per_group() == self.odd.chips_per_group()
    }

    fn in_use(&self, position: u32) -> &A
        ensures { A.LineCode.code result.now ≡ in_use (A.LineCode.code self.now.even) (A.LineCode.code self.now.odd) position }
    {
        if position % 2 == 0 || !self.is_alike() {
            &self.even
        } else {
            &self.odd
        }
    }
}

impl<A: LineCode> LineCode for Alternating<A> {
    ghost code = { λ s. alternating (A.LineCode.code s.even) (A.LineCode.code s.odd) };

    ghost lawful = { λ s. alternating_lawful _ _ (A.LineCode.lawful s.even) (A.LineCode.lawful s.odd) };

    fn bits_per_group(&self) -> u32 {
        self.even.bits_per_group()
    }

    fn chips_per_group(&self) -> usize {
        self.even.chips_per_group()
    }

    fn spread(&self, position: u32, value: u32, chips: &mut [u8]) -> Result<(), Fault> {
        self.in_use(position).spread(position, value, chips)
    }

    fn despread(&self, position: u32, chips: &[u8]) -> Result<(u32, bool), Fault> {
        self.in_use(position).despread(position, chips)
    }
}
