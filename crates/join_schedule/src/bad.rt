//! The first list that is no list of joins.

ghost use Rattle.std.specs.Prelude.{◌≡◌, ◌↔◌, ◌<◌, ◌^◌, length, IsTrue, IfSome, IfNone};
ghost use Rattle.join_schedule.specs.Joins.{AreJoins, IsJoinList, IsFirstBad};

use crate::joins::Joins;

/// The first operation whose list doesn't strictly ascend, or names one that isn't earlier.
pub fn bad_join(j: &Joins) -> Option<u32>
    requires { length j.now < 2 ^ 32 }
    ensures first { IfSome result (IsFirstBad j.now) }
    ensures none { IfNone result (AreJoins j.now) }
{
    for number in 0..j.len() {
        if !is_join_list(number, j.list(number)) {
            return Some(number as u32);
        }
    }
    None
}

fn is_join_list(j: usize, list: &[u32]) -> bool
    ensures { IsTrue result ↔ IsJoinList j list.now }
{
    for k in 0..list.len() {
        if list[k] as usize >= j {
            return false;
        }
        if k > 0 && list[k] <= list[k - 1] {
            return false;
        }
    }
    true
}
