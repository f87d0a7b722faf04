// The program `train` of document 01: a sheet on standard input; s and p after each surface, and their
// sum, on standard output. What is printed is the text of the crate `train_text`.
#![tactic(auto)]

// No text is longer than 4096 bytes, so that none is refused.
fn print(src: &[u8]) {
    let mut text = [0u8; 4096];
    match train_text::train_text(src, &mut text) {
        Ok(n) => io::write_all(1, &text[..n]),
        Err(_) => true,
    };
}

// More bytes than the longest sheet has are read, so that a longer input is refused and not cut.
fn main() {
    let mut buf = io::large_buffer();
    let n = io::read_full(0, &mut buf);
    print(&buf[..n]);
}
