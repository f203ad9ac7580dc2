// Whether memory is sound, answered for any contents: no slot is relied on before it has been visited.
#![tactic(auto)]

ghost use Rattle.std.specs.Prelude.{◌≡◌};
ghost use Rattle.audit.specs.Checks.{rules};
ghost use Rattle.audit.specs.Post.{Audited};
ghost use Rattle.audit.specs.Surveys.{Surveyed, SurveyedFresh};

use crate::budget::Budget;
use crate::leaves::LeafCheck;
use crate::visits::{Audit, visit_chain};
use measures::Measure;
use slots::records::{Link, Record, Tree, Unsound};
use std::marker::PhantomData;

mod budget;
pub mod leaves;
mod visits;

// The heaviest rows that a measure's joins are lawful for.
const HEAVIEST: u64 = 2_097_152;

#[derive(Clone, Copy, PartialEq, Eq)]
pub enum AuditFault {
    // fewer scratch bytes than slots
    ShortScratch,
    Unsound,
}

impl From<Unsound> for AuditFault {
    ghost use Rattle.audit.specs.declared.AuditFault.TheVariants as fault_of;

    ghost from_gives = { λ _ fault. fault ≡ fault_of.Unsound };

    fn from(_: Unsound) -> AuditFault {
        AuditFault::Unsound
    }
}

// Says how many elements the trees have, if they and the chain name each slot of zeroed marks once.
fn survey<R: Copy, M: Measure, S, L: LeafCheck<R, M, S>>(
    slots: &[Record<R, M::Value>],
    roots: &[Tree],
    free: Link,
    limit: u16,
    marks: &mut [u8],
    source: &mut S,
) -> Result<u16, Unsound>
    ensures { Surveyed (rules M.Item.Weigh.weight M.Measure.means L.LeafCheck.items L.LeafCheck.good L.LeafCheck.checks) source.old slots.now roots.now free limit source.new marks.old result }
{
    let mut audit: Audit<R, M, S, L> = Audit {
        slots,
        marks,
        budget: Budget {
            elements: limit,
            weight: HEAVIEST,
        },
        source,
        checks: PhantomData,
    };
    audit.visit_roots(roots)?;
    visit_chain(slots, audit.marks, free)?;
    if audit.marks.contains(&0) {
        return Err(Unsound);
    }
    Ok(limit - audit.budget.elements)
}

fn survey_fresh<R: Copy, M: Measure, S, L: LeafCheck<R, M, S>>(
    slots: &[Record<R, M::Value>],
    roots: &[Tree],
    free: Link,
    limit: u16,
    marks: &mut [u8],
    source: &mut S,
) -> Result<u16, Unsound>
    ensures { SurveyedFresh (rules M.Item.Weigh.weight M.Measure.means L.LeafCheck.items L.LeafCheck.good L.LeafCheck.checks) source.old slots.now roots.now free limit source.new marks.old marks.new result }
{
    marks.fill(0);
    let found = survey::<R, M, S, L>(slots, roots, free, limit, marks, source);
    marks.fill(0);
    found
}

// Whether the trees of these roots and the chain from `free` are sound in the slots and name each of them once.
// It marks slots in the first bytes of the scratch, one for each, which are zero afterwards.
pub fn audit<R: Copy, M: Measure, S, L: LeafCheck<R, M, S>>(
    slots: &[Record<R, M::Value>],
    roots: &[Tree],
    free: Link,
    limit: u16,
    scratch: &mut [u8],
    source: &mut S,
) -> Result<u16, AuditFault>
    ensures { Audited (rules M.Item.Weigh.weight M.Measure.means L.LeafCheck.items L.LeafCheck.good L.LeafCheck.checks) source.old slots.now roots.now free limit source.new scratch.old scratch.new result }
{
    let count = slots.len();
    // A length, and no `get_mut`: after one the contract could not say which bytes are zero.
    if scratch.len() < count {
        return Err(AuditFault::ShortScratch);
    }
    let marks = &mut scratch[0..count];
    Ok(survey_fresh::<R, M, S, L>(slots, roots, free, limit, marks, source)?)
}
