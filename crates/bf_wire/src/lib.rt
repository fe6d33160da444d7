//! Values as bytes: each has one spelling, and no spelling is a proper prefix of another.
#![tactic(auto)]

pub mod calls;
pub mod field;
pub mod laws;
mod list;
mod number;
mod pair;
mod text;
mod value;

pub use calls::{
    put_i64, put_key, put_name, put_row, put_u8, put_u32, put_value, put_whole, take_i64, take_key,
    take_name, take_row, take_u8, take_u32, take_value,
};
pub use field::Field;
pub use laws::spellings_are_apart;
