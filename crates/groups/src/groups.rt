// Numbers in groups of seven bits (document 01, "Night sheet").
ghost use Rattle.std.specs.Prelude.{◌≡◌, ◌+◌, ◌≤◌, ◌<◌, length};
ghost use Rattle.laws.specs.Over.{Wrote};
ghost use Rattle.groups.specs.Groups.{GroupsAt, PutGroups, groups};
ghost use Rattle.groups.specs.inner.Groups.{LastGroup, groups_most, groups_value};

use octets::{Found, has_room};

// The most groups of a number below 2 to the 32nd.
const GROUPSMOST: usize = 5;

// The first place from `at` on whose octet says that no more follow.
fn last_group(s: &[u8], at: usize, end: usize) -> Option<usize>
    requires { (at ≤ end) × (end ≤ length s.now) }
    ensures { LastGroup s.now at end result }
{
    for i in at..end {
        if s[i] < 128 {
            return Some(i);
        }
    }
    None
}

// The number that `k` groups from `at` on stand for.
fn groups_value(s: &[u8], at: usize, k: usize) -> u64
    requires { (at + k ≤ length s.now) × (k ≤ groups_most) }
    ensures { result ≡ groups_value k s.now at }
{
    let mut v: u64 = 0;
    for i in (0..k).rev() {
        let low = (s[at + i] % 128) as u64;
        v = low + 128 * v;
    }
    v
}

// The number at `at`, of the octets of `s` before `end`; its value where 32 bits hold it.
pub fn groups_at(s: &[u8], at: usize, end: usize) -> Option<Found<Option<u32>>>
    ensures { GroupsAt s.now at end result }
{
    if s.len() < end || end <= at {
        return None;
    }
    let first = s[at];
    if first < 128 {
        return Some(Found {
            value: Some(first as u32),
            next: at + 1,
        });
    }
    let last = last_group(s, at + 1, end)?;
    let top = s[last];
    if top == 0 {
        return None;
    }
    let next = last + 1;
    let k = next - at;
    if GROUPSMOST < k {
        return Some(Found { value: None, next });
    }
    let value = u32::try_from(groups_value(s, at, k)).ok();
    Some(Found { value, next })
}

// How many groups `n` has.
fn groups_size(n: u32) -> usize
    ensures { result ≡ length (groups n) }
{
    let mut rest = n;
    let mut k: usize = 1;
    // What is left decides how many follow, so there is nothing that a `for` could count.
    while 128 <= rest {
        rest /= 128;
        k += 1;
    }
    k
}

// `n` in its groups.
fn write_groups(out: &mut [u8], at: usize, n: u32) -> usize
    requires { at + length (groups n) ≤ length out.old }
    ensures { Wrote out.old at (groups n) result out.new }
{
    let mut rest = n;
    let mut p = at;
    // As in `groups_size`.
    while 128 <= rest {
        out[p] = (128 + rest % 128) as u8;
        rest /= 128;
        p += 1;
    }
    out[p] = rest as u8;
    p + 1
}

// `n` in its groups, or nothing.
pub fn put_groups(out: &mut [u8], at: usize, n: u32) -> usize
    ensures { PutGroups out.old at n result out.new }
{
    let need = groups_size(n);
    if !has_room(out, at, need) {
        return at;
    }
    write_groups(out, at, n)
}
