//! The rules on methods of the stage of headers (JLS 8.4, 8.8, 9.4, 9.6.3.4): 503 to 508, 510, 512 at methods, 513 and 514.
#![tactic(auto)]

mod methods;
mod owned;
mod pairs;
mod results;
mod throwing;

pub use methods::first_methods_break;
pub use owned::{OwnerIndex, owner_index, standing};
pub use pairs::is_weaker;
pub use results::result_answer;
pub use throwing::{is_throwable, thrown_fits};
