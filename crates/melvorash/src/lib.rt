// The five jobs. Each checks its input, refuses it with the page's number and place, and then has
// altered nothing; or does its work by the definitions of section 3.12.
#![tactic(auto)]

mod levels;
mod order;
mod paragraphs;

pub use levels::{explicit_levels, resolve_levels};
pub use line::Placed;
pub use order::{order_line, order_lines};
pub use paragraphs::{base, cut, cut_part};
pub use refusals::Refusal;
