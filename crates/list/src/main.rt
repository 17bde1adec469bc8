// Lists the block file on standard input, of at most 65,536 bytes.
#![tactic(auto)]

fn main() {
    let mut file = [0u8; 65537];
    let n = io::read_full(0, &mut file);
    listfile::print_file(&file[..n]);
}
