// The request printer (document 01, 'Request printer'): reads standard input and writes the output for it. One byte more than an input may have
// is read, so that a longer one is seen.
#![tactic(auto)]

// Standard input.
const STDIN_FILENO: i32 = 0;
// Standard output.
const STDOUT_FILENO: i32 = 1;

// What is proved of it: it ends, stays within its buffer and its page, and what it hands to `write_all` is the page that `printing::print` gives for the
// bytes that `read_full` left in the buffer. It has no equation, as the kit's io says nothing of what a file holds or comes to hold.
fn main() {
    let mut buffer = [0u8; 65537];
    let n = io::read_full(STDIN_FILENO, &mut buffer);
    let page = printing::print(&buffer[..n]);
    let bytes = page.bytes;
    let length = page.length;
    io::write_all(STDOUT_FILENO, &bytes[..length]);
}
