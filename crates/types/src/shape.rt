// Shapes as structs of f32, by value, as C hands them, each for the plane and for space. Fields stand in the order of the Rust's arrays.

// A point or a vector.
#[repr(C)]
#[derive(Clone, Copy, Debug, PartialEq)]
pub struct Vec2 {
    // Grows with the column.
    pub x: f32,
    // Grows with the row.
    pub y: f32,
}

// A point or a vector of space.
#[repr(C)]
#[derive(Clone, Copy, Debug, PartialEq)]
pub struct Vec3 {
    // Along the first axis.
    pub x: f32,
    // Along the second axis.
    pub y: f32,
    // Along the third axis.
    pub z: f32,
}

// The numbers from low to high.
#[repr(C)]
#[derive(Clone, Copy, Debug, PartialEq)]
pub struct Range {
    // The least number.
    pub low: f32,
    // The greatest number.
    pub high: f32,
}

// An upright box: an axis-aligned bounding box by its low and its high corner.
#[repr(C)]
#[derive(Clone, Copy, Debug, PartialEq)]
pub struct Aabb2 {
    // x of the low corner.
    pub min_x: f32,
    // y of the low corner.
    pub min_y: f32,
    // x of the high corner.
    pub max_x: f32,
    // y of the high corner.
    pub max_y: f32,
}

// An upright box of space: an axis-aligned bounding box by its low and its high corner.
#[repr(C)]
#[derive(Clone, Copy, Debug, PartialEq)]
pub struct Aabb3 {
    // x of the low corner.
    pub min_x: f32,
    // y of the low corner.
    pub min_y: f32,
    // z of the low corner.
    pub min_z: f32,
    // x of the high corner.
    pub max_x: f32,
    // y of the high corner.
    pub max_y: f32,
    // z of the high corner.
    pub max_z: f32,
}

// A turned box: an oriented bounding box by its centre and two half edges, u and v.
#[repr(C)]
#[derive(Clone, Copy, Debug, PartialEq)]
pub struct Obb2 {
    // x of the centre.
    pub cx: f32,
    // y of the centre.
    pub cy: f32,
    // x of the half edge u.
    pub ux: f32,
    // y of the half edge u.
    pub uy: f32,
    // x of the half edge v.
    pub vx: f32,
    // y of the half edge v.
    pub vy: f32,
}

// A turned box of space: an oriented bounding box by its centre and three half edges, u, v and w.
#[repr(C)]
#[derive(Clone, Copy, Debug, PartialEq)]
pub struct Obb3 {
    // x of the centre.
    pub cx: f32,
    // y of the centre.
    pub cy: f32,
    // z of the centre.
    pub cz: f32,
    // x of the half edge u.
    pub ux: f32,
    // y of the half edge u.
    pub uy: f32,
    // z of the half edge u.
    pub uz: f32,
    // x of the half edge v.
    pub vx: f32,
    // y of the half edge v.
    pub vy: f32,
    // z of the half edge v.
    pub vz: f32,
    // x of the half edge w.
    pub wx: f32,
    // y of the half edge w.
    pub wy: f32,
    // z of the half edge w.
    pub wz: f32,
}

// A 3 by 3 matrix in column-major order: mRC stands in row R and column C.
#[repr(C)]
#[derive(Clone, Copy, Debug, PartialEq)]
pub struct Mat3 {
    // Row 0, column 0.
    pub m00: f32,
    // Row 1, column 0.
    pub m10: f32,
    // Row 2, column 0.
    pub m20: f32,
    // Row 0, column 1.
    pub m01: f32,
    // Row 1, column 1.
    pub m11: f32,
    // Row 2, column 1.
    pub m21: f32,
    // Row 0, column 2.
    pub m02: f32,
    // Row 1, column 2.
    pub m12: f32,
    // Row 2, column 2.
    pub m22: f32,
}
