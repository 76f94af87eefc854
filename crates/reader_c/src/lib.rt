//! The C functions of include/elbomavund.h, for callers in other languages: those of crate reader, under the same names and with
//! the same promises. This crate is built as a static library, which no crate can stand on.

#![tactic(auto)]

ghost use Rattle.reader.specs.Exports.{Reports, Shows};

// `read`, in numbers: the answer is returned, and all four go to the first four words of out.
#[unsafe(no_mangle)]
pub extern "C" fn elbomavund_read(number: u32, s: &[u8], t: &mut [u32], out: &mut [u64]) -> u32
    ensures { Reports number s.now t.old out.old result t.new out.new }
{
    reader::elbomavund_read(number, s, t, out)
}

// The part of a buffer of len bytes that a node names: 0 or 7 is returned, offset and length go to the first two words of out.
#[unsafe(no_mangle)]
pub extern "C" fn elbomavund_view(len: usize, t: &[u32], node: usize, out: &mut [u64]) -> u32
    ensures { Shows len t.now node out.old result out.new }
{
    reader::elbomavund_view(len, t, node, out)
}
