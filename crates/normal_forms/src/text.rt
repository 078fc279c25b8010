// Gates as text, put behind what stands in a lent buffer.
use kinds::Kind;
use listing::text::{put_kind, put_number, put_signal};
use signal::Signal;
use text_parts::Text;

// The signals of a list, a space before each.
fn put_signals(to: &mut Text, list: &[u32]) {
    for s in list {
        to.put(b' ');
        put_signal(to, Signal { a: *s });
    }
}

// Its kind and its inputs; a Lut's table in decimal at the end.
pub fn put_gate(to: &mut Text, kind: Kind, ins: &[u32], table: u64) {
    put_kind(to, kind);
    put_signals(to, ins);
    if kind == Kind::Lut {
        to.put(b' ');
        put_number(to, table);
    }
}
