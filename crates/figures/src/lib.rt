// Figures with known results. There is no code here. specs/Known.antt has lines, a ray, overlaps, a raster, tiles and a stroke, specs/Twins.antt their
// falling twins, specs/Further.antt more tiles and strokes, specs/Faces.antt lines clipped in one call, specs/Edges.antt the edges by which lines come
// in, specs/Offenders.antt refused strokes, specs/Inside.antt strokes that stay on the sheet, and specs/Ink.antt ink. proofs/Hold.antt shows that each
// row holds for the definitions.
// The library and the Rust are run on the rows of tests/figures.txt, which are of these kinds and others.
#![tactic(auto)]
