// What came back, as lines of text.
use layers::Answer;

fn number(n: u64) {
    io::write_all(1, b" ");
    io::print_decimal(1, n);
}

fn end_line() {
    io::write_all(1, b"\n");
}

// Number, place and count.
pub fn answer(what: &[u8], a: Answer) {
    io::write_all(1, what);
    io::write_all(1, b":");
    number(u64::from(a.number));
    number(u64::from(a.place));
    number(a.count);
    end_line();
}

pub fn figure(what: &[u8], n: u16) {
    io::write_all(1, what);
    io::write_all(1, b":");
    number(u64::from(n));
    end_line();
}

// The height of the first pixel.
pub fn height(picture: &[u16]) {
    if let Some(first) = picture.first() {
        figure(b"height", *first);
    }
}

// Bytes in hexadecimal, two digits each.
pub fn bytes(s: &[u8]) {
    for byte in s {
        io::print_hex(1, u64::from(*byte), 2);
    }
    end_line();
}

// Whether a file begins with these bytes.
pub fn head(file: &[u8], head: &[u8]) {
    if file.starts_with(head) {
        io::write_all(1, b"head as it must be\n");
    } else {
        io::write_all(1, b"head differs\n");
    }
}
