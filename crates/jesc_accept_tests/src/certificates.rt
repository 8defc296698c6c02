//! Certificates that hold, in one file. The number of each is that of its problem.

use jesc_cert::{Certs, parse_cert};
use jesc_text::Text;
use std::alloc::Global;
use std::process::Abort;

/// The lines of the file, some of them with `; ` between them.
const LINES: &str = r"jescert 1; rounds 2
cond two-leaves 0; s 1; c 1; c 0
cond beside-an-atom 0; t -1 1 1 0; r 2 -1 2 1; q 1 0 1 1 1 -2 0
s 1; c 1; s 2; m 0; c 0
cond no-literal 1; c 0
cond four-leaves 2; s 1; s 2; c 3; c 2; s 2; c 1; c 0
cond pigeons 3
s 1; s 3; c 3; s 4; s 5; c 4; s 6; c 8; c 2; c 1; s 2; s 4; c 6; s 3; s 6; c 7; s 5; c 5; c 2; c 1; c 0
cond opposite-bounds 4; r 2 1 -2 1; q 1 0 1 1 1 -2 0
s 1; s 2; c 1; m 0; c 0
cond multiplied 5; r 3 1 2 -3 2; q 1 0 2 1 1 2 1 1 0; q 1 3 1 2 1 -1 0
s 1; s 2; s 3; c 2; m 0; c 1; c 0
cond rounded-down 6; r 4 1 -2 3 -4 3; q 1 0 1 2 2 1 1 1 0; q 1 1 1 3 2 -2 1 -1 0; q 1 4 1 5 1 -1 0
s 1; s 2; c 1; s 3; s 4; c 3; m 0; c 2; c 0
cond both-ways 7; g 2 3; g 3 2
s 1; s 2; c 1; s 3; s 4; m 1; c 2; m 0; c 0
cond an-atom-again 7; t 0 2 1 0 -1 1; t -1 2 1 2 -1 3; g 3 2; g 2 3
s 1; s 2; c 1; s 3; s 4; m 0; c 2; m 1; c 0
cond sums-of-applications 8; t -1 2 1 2 -1 3; g 3 2; r 3 -5 3 -4 2; q 1 0 1 1 1 0 1 1 3; q 1 3 1 2 1 -1 0
s 1; s 2; c 1; s 3; s 4; c 3; s 5; m 0; m 1; c 2; c 0
cond a-sum-as-argument 9; g 2 3
s 1; s 2; c 1; s 3; c 2; m 0; c 0
cond two-arguments 10; t 0 2 1 2 -1 4; g 2 4; g 2 3
s 1; s 2; c 1; s 3; c 2; m 1; c 0
cond nested 11; g 1 2
s 1; s 2; c 1; s 3; c 2; m 0; c 0
cond greatest-numbers 12; t 19807040628566084398385987584 2 1 0 2147483648 1
t -19807040628566084398385987584 2 1 0 -2147483648 1; r 3 3 -3 4 2; q 1 2 0 0 1 19807040628566084398385987584 1 1 1
q 1 0 1 1 4 -1 0; r 2 2 -1 2; q 2147483648 0 2147483648 1 9223372036854775808 -1 0
q 2147483648 2 2147483648 2 9223372036854775808 -1 0
s 1; c 1; s 2; m 1; c 0
cond two-lemmas 13; r 3 1 2 -3 2; q 1 0 1 1 1 0 2 1 0 -1 2; q 1 3 1 2 1 -1 0; r 3 1 2 -4 2; q 1 0 1 1 1 0 2 1 0 -1 2
q 1 3 1 2 1 -2 0
s 1; s 2; s 3; s 4; c 2; m 1; m 0; c 1; c 0
end
";

/// Appends the lines of a text, each with its line feed, as far as memory goes.
pub fn append_lines(file: &mut Text, text: &str) {
    for row in text.lines() {
        for line in row.split("; ") {
            let _done = file.append(line.as_bytes()).is_ok() && file.append(b"\n").is_ok();
        }
    }
}

/// The bytes of the file.
pub fn file(alloc: Global) -> Text {
    let mut file = Text::new(alloc);
    append_lines(&mut file, LINES);
    file
}

/// The certificates of the file.
pub fn certificates(rt: &impl Abort, alloc: Global) -> Certs {
    parse_cert(alloc, file(alloc).as_slice()).expect(rt, "certificates")
}
