// The intersection and the union of many lists.
ghost use Rattle.std.specs.Prelude.{◌≢◌, [], IfOk};
ghost use Rattle.block_lists.specs.Lists.{IsAll, IsAny};

use crate::joining::{and_lists, or_lists};
use crate::lists::Lists;
use crate::making::empty;
use mdc_values::Memory;
use std::alloc::Global;

/// The rows that all of them stand for, of which there must be one. They are joined by halves, so each row is gone over
/// in as many joins as the number of lists can be halved. They stay as they are, also after `Memory`.
pub fn and_all(alloc: Global, members: &[Lists]) -> Result<Lists, Memory>
    requires { members.now ≢ [] }
    ensures { IfOk result (IsAll members.now) }
{
    if let [only] = members {
        return or_lists(alloc, only, &empty(alloc));
    }
    let (front, back) = members.split_at(members.len() / 2);
    let front = and_all(alloc, front)?;
    let back = and_all(alloc, back)?;
    and_lists(alloc, &front, &back)
}

/// The rows that one of them stands for. They are joined by halves, so each row is gone over in as many joins as the
/// number of lists can be halved. They stay as they are, also after `Memory`.
pub fn or_all(alloc: Global, members: &[Lists]) -> Result<Lists, Memory>
    ensures { IfOk result (IsAny members.now) }
{
    match members {
        [] => Ok(empty(alloc)),
        [only] => or_lists(alloc, only, &empty(alloc)),
        _ => {
            let (front, back) = members.split_at(members.len() / 2);
            let front = or_all(alloc, front)?;
            let back = or_all(alloc, back)?;
            or_lists(alloc, &front, &back)
        }
    }
}
