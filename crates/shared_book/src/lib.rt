#![tactic(auto)]

//! A book that many callers share: it lies under one lock, each caller has a pass, and each accepted call gives a receipt. When the
//! passes come back, the receipts are counted, and the book is taken out where each entry since it was shared has one.
mod admitting;
mod changing;
mod claiming;
mod claims;
mod closing;
mod committing;
mod copies;
mod desk;
mod looking;
mod marks;
mod pass;
mod receipt;
mod refusal;
mod shared;
mod sharing;

pub use admitting::{Foreign, known};
pub use claiming::Offer;
pub use closing::{CloseRefusal, close};
pub use looking::{HeldLeft, Shown};
pub use pass::Pass;
pub use receipt::Receipt;
pub use refusal::{CloseFault, SharedCommitRefusal, SharedRefusal};
pub use shared::{PARTS, Shared, share};
pub use sharing::Sharing;
