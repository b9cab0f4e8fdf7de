// What the programs that run scripts share: the lines of a script, the house that it describes, and what it asks
// of the house's store.
#![tactic(auto)]

mod answer;
mod carrying;
mod command;
mod described;
mod description;
mod draft_lines;
mod drafting;
mod expected;
mod input;
mod items;
mod joined;
mod line;
mod open_house;
mod question;
mod telling;
mod trouble;
mod typing;
mod view;
mod words;

pub use answer::{Answer, Refused};
pub use carrying::{CarryOut, OverStore, carry_out_all, carry_out_text, run_house};
pub use command::{Command, Edit, OwnCommand, StoreKind};
pub use described::{RunOver, run_described};
pub use description::{Description, Session};
pub use draft_lines::DraftLine;
pub use drafting::Drafting;
pub use expected::Expected;
pub use input::read_script;
pub use items::{Item, Items};
pub use joined::Joined;
pub use line::{Line, read_line, read_lines};
pub use open_house::OpenHouse;
pub use question::Question;
pub use telling::{list, tell};
pub use trouble::Trouble;
pub use typing::Typing;
pub use view::View;
pub use words::{read_node, read_number, read_triple};
