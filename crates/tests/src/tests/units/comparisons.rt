//! Byte strings of each length, compared with copies that differ in one byte.
ghost use Rattle.std.specs.Prelude.{◌<◌};

use crate::support::kinds::Host;
use crate::tests::assertions::holds;
use intaglio_content::same_bytes;

// A string of this length differs from its copy with another byte at this place.
fn differs_at(rt: &impl Host, count: usize, at: usize)
    requires { at < count }
{
    let bytes = Vec::from_elem(rt.alloc(), 7u8, count).expect(rt, "memory");
    let mut other = Vec::from_elem(rt.alloc(), 7u8, count).expect(rt, "memory");
    other[at] = 8;
    holds(rt, !same_bytes(&bytes, &other));
}

fn differ_at_each_place(rt: &impl Host, count: usize)
    requires { count < 100 }
{
    let bytes = [7u8; 100];
    holds(rt, same_bytes(&bytes[..count], &bytes[..count]));
    holds(rt, !same_bytes(&bytes[..count], &bytes[..count + 1]));
    for at in 0..count {
        differs_at(rt, count, at);
    }
}

#[test]
fn strings_of_each_length_are_compared(rt: HostRuntime) {
    for count in 0..100 {
        differ_at_each_place(&rt, count);
    }
}
