// The decode header (docs/RULES.md, "Decode header"): the main header without its TLM segments, copied run by run.
ghost use Rattle.std.specs.Prelude.{◌≡◌, ◌+◌, ◌-◌, ◌≤◌, length, take, drop};
ghost use Rattle.numbers.specs.Bytes.{put};
ghost use Rattle.header.specs.Walk.{walk_from};
ghost use Rattle.header.specs.Strip.{decode_header};

// Copies a part of the codestream to `to` on, and gives where it ends there.
pub fn append(codestream: &[u8], from: usize, end: usize, out: &mut [u8], to: usize) -> usize
    requires from_le_end { (from ≤ end) × (end ≤ length codestream.now) }
    requires from_in_bounds { to + (end - from) ≤ length out.old }
    ensures value { result ≡ to + (end - from) }
    ensures out_after { out.new ≡ put out.old to (take (end - from) (drop from codestream.now)) }
{
    numbers::copy_at(&codestream[from..end], out, to)
}

// Writes the decode header of what the walk visits. The run from `from` on is still to be copied.
pub fn strip(codestream: &[u8], out: &mut [u8])
    requires in_bounds { 2 ≤ length codestream.now }
    requires codestream_in_bounds { length (decode_header codestream.now (walk_from codestream.now 2).visits) ≤ length out.old }
    ensures { out.new ≡ put out.old 0 (decode_header codestream.now (walk_from codestream.now 2).visits) }
{
    let mut from: usize = 0;
    let mut to: usize = 0;
    let mut at: usize = 2;
    loop {
        let Some(passed) = crate::walk::next_passed(codestream, at) else {
            append(codestream, from, at, out, to);
            return;
        };
        if passed.tlm.is_some() {
            to = append(codestream, from, at, out, to);
            from = passed.next;
        }
        at = passed.next;
    }
}
