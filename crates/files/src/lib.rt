// The bytes of files: reading and writing list files and plan files, and the line that a refusal prints.
//
//     let mut list = OpenList::new().close();
//     read_list(bytes, &mut list)?;

#![tactic(auto)]

pub mod fault;
mod gather;
mod lay;
pub mod list_file;
pub mod plan_file;
pub mod print;
pub mod program;
pub mod reader;
pub mod record;
pub mod report;
mod text;
