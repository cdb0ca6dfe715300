// Triangles of a surface, the trays that hold them, and their text.
#![tactic(auto)]

mod any_tray;
mod digits;
mod line;
mod pouring;
mod record_tray;
pub mod text;
mod text_tray;
mod tray;
mod triangle;

pub use any_tray::AnyTray;
pub use digits::{eight_digits, read_digits};
pub use line::{read_line, read_line_at, write_line_at};
pub use pouring::pour;
pub use record_tray::RecordTray;
pub use text_tray::TextTray;
pub use tray::{Full, Tray};
pub use triangle::Triangle;
pub use triangle::making::TriangleRefusal;
