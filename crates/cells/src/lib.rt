// What next and opposite reach on a block's memory: volumes, faces in message order, rings.
#![tactic(auto)]

pub mod reset; // reset.rt: tables made ready again at the places of a list
pub mod walk; // walk.rt: the volume of a dart, marked
pub mod sewn; // sewn.rt: darts of a volume that are sewn
pub mod order; // order.rt: the faces of a volume in message order
pub mod vertex; // vertex.rt: the vertices of a volume, numbered by first use
pub mod pairs; // pairs.rt: ordered vertex pairs, each once
