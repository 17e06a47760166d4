// Referral requests and replies: document 01, "Layouts".
// - referral: replies to root, link and SYSVOL requests
// - name_lists: replies to DC and domain requests
// - request: the bytes of a referral request
#![tactic(auto)]

pub mod name_lists;
pub mod referral;
pub mod request;
