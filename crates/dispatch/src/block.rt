// One block in a block's memory, from its file. A viewer's block is read only where a viewer can read it.
use answers::Answer;
use commands::viewers;
use memory::header::Header;

// Block b's file.
pub fn from_file(viewers: u32, b: usize, file: &[u8], block: &mut [u64]) -> Answer {
    if viewers::has(viewers, b as u64) {
        let mut own = [0u64; Header::VIEWER_WORDS];
        viewer::read_file(file, &mut own)?;
    }
    readfile::read_file(file, block)
}
