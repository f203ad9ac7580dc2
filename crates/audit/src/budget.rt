// What of the audit's limits is left.
ghost use Rattle.audit.specs.Visits.{Spent};

use slots::records::Unsound;

// How many elements, of how much weight, may still come.
#[derive(Clone, Copy)]
pub struct Budget {
    pub elements: u16,
    pub weight: u64,
}

impl Budget {
    pub fn spend(&mut self, weight: u64) -> Result<(), Unsound>
        ensures { Spent self.old self.new weight result }
    {
        let elements = self.elements.checked_sub(1).ok_or(Unsound)?;
        let weight = self.weight.checked_sub(weight).ok_or(Unsound)?;
        *self = Budget { elements, weight };
        Ok(())
    }
}
