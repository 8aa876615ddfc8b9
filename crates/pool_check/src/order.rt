//! The test of the rows' order: a walk from the roots that enters no row twice. Links lead back, so while all is well the rows
//! that were listed are those before the next one.
ghost use Rattle.std.specs.Prelude.{◌≡◌, ◌<◌, true, map, length, IfOk};
ghost use Rattle.std.specs.List.{range_with_len};
ghost use Rattle.pool_order.specs.Order.{places, with_all_new};
ghost use Rattle.pool_text.specs.Rows.{row_form};
ghost use Rattle.pool_text.specs.Pool.{links_from};
ghost use Rattle.pool_check.specs.Rows.{rows_lead_back, links_lead_back};
ghost use Rattle.pool_check.specs.Damages.{rows_in_order as all_in_order};
ghost use Rattle.pool_check.specs.Counted.{CountsOn};

use elem_core::NoMemory;
use pool_order::Visit;
use pool_text::{Pool, Row, link_at};
use std::alloc::Global;

// Whether the rows stand in their order, and nothing else stands there.
pub(crate) fn rows_in_order(alloc: Global, pool: &Pool) -> Result<bool, NoMemory>
    requires { links_lead_back pool.now ≡ true }
    ensures { IfOk result (λ are. are ≡ all_in_order pool.now) }
{
    let rows = pool.rows.as_slice();
    let mut next: u64 = 0;
    for root in pool.roots.as_slice() {
        match next_after(alloc, rows, next, *root)? {
            Some(after) => next = after,
            None => return Ok(false),
        }
    }
    Ok(next == rows.len() as u64)
}

// The row that comes next once the root is listed, where the rows before the next one are listed already. None where another
// row would be listed in its place.
fn next_after(
    alloc: Global,
    rows: &[Row],
    mut next: u64,
    root: u64,
) -> Result<Option<u64>, NoMemory>
    requires low { root < length rows.now }
    requires links { rows_lead_back 0 (map row_form rows.now) ≡ true }
    ensures { IfOk result (λ after. CountsOn (with_all_new (range_with_len 0 next) (places (length rows.now) (links_from (map row_form rows.now)) root)) after) }
{
    if root < next {
        return Ok(Some(next));
    }
    let mut stack = Vec::new(alloc);
    stack.push(Visit {
        link: root,
        next: 0,
    })?;
    while let Some(visit) = stack.pop() {
        match link_at(&rows[visit.link as usize], visit.next) {
            Some(child) => {
                stack.push(Visit {
                    link: visit.link,
                    next: visit.next + 1,
                })?;
                if next <= child {
                    stack.push(Visit {
                        link: child,
                        next: 0,
                    })?;
                }
            }
            None => {
                if visit.link != next {
                    return Ok(None);
                }
                next += 1;
            }
        }
    }
    Ok(Some(next))
}
