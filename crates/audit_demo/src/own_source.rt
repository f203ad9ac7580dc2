// An audit by a checker of leaves that is lent, with no source beside it: the checker is its own source.
ghost use Rattle.audit.specs.Checks.{rules};
ghost use Rattle.audit.specs.Post.{Audited};

use audit::leaves::LeafCheck;
use audit::{AuditFault, audit};
use measures::Measure;
use slots::records::{Link, Record, Tree};

pub fn audit_by<R: Copy, M: Measure, L: LeafCheck<R, M, L>>(
    slots: &[Record<R, M::Value>],
    roots: &[Tree],
    free: Link,
    limit: u16,
    scratch: &mut [u8],
    leaves: &mut L,
) -> Result<u16, AuditFault>
    ensures { Audited (rules M.Item.Weigh.weight M.Measure.means L.LeafCheck.items L.LeafCheck.good L.LeafCheck.checks) leaves.old slots.now roots.now free limit leaves.new scratch.old scratch.new result }
{
    audit::<R, M, L, L>(slots, roots, free, limit, scratch, leaves)
}
