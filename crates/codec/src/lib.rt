// The bytes of one value at a place of a slice, put and read side by side: points, third links, darts of files, darts of faces and entries of parts. Values alone, no block's memory.
#![tactic(auto)]

pub mod dart; // dart.rt: a dart of a file
pub mod entry; // entry.rt: a point, a dart of a face, an entry of a part
pub mod third; // third.rt: a third link
