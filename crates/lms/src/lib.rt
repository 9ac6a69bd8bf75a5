// The LMS signature check of RFC 8554, for LMS_SHA256_M32_H5 with LMOTS_SHA256_N32_W8.
#![tactic(auto)]

pub mod layout;
mod one_time;
pub mod signature;
mod strings;
mod tree;
