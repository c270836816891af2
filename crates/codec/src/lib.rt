// The bytes of the line, read and written as the crate `wire` says.
//
// `reading::read_message` tells what any bytes say, and `reading::train_data` hands back the part of
// them that is train data. `writing::write_message` puts a message over the front of a lent output.
// `number` reads and writes numbers at any place of any bytes. Nothing here keeps a byte, and no call fails.
#![tactic(auto)]

pub mod kind;
pub mod number;
pub mod reading;
pub mod writing;
