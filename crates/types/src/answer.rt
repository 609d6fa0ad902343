// Answers that are no single shape or number.

// The pixels of a box: columns from x0 up to x1, rows from y0 up to y1, low end in and high end out.
#[derive(Clone, Copy, Debug, PartialEq, Eq)]
pub struct Pixels {
    pub x0: usize,
    pub y0: usize,
    pub x1: usize,
    pub y1: usize,
}
