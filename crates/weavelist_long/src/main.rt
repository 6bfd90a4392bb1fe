// `weavelist` on an input of 65,537 bytes, which would be accepted but for its length (stdin and stdout: tools/replay.py). A crate has one stdin, so a second input is a second program with the same `main`.
#![tactic(auto)]

fn main() {
    let mut input = [0u8; 65537];
    let mut page = [0u8; 589824];
    program::weavelist(&mut input, &mut page);
}
