// Reads a chunk on standard input and prints its weave list (document 01, "The weave list, and cases").
#![tactic(auto)]

fn main() {
    let mut input = [0u8; 65537];
    let mut page = [0u8; 589824];
    program::weavelist(&mut input, &mut page);
}
