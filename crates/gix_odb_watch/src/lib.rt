//! What the paths of indices and packs have shown: no such path shows two contents while its folder is watched.
//!
//! `specs/Watched.antt` says which paths are watched, `specs/HasShown.antt` what they have shown over a family of trees.
//! ```rust
//! let mut shown = Shown::new(alloc);
//! shown.watch(alloc, &folder, disk.tree())?;
//! let revealed = shown.revealed(alloc, disk.tree(), &change)?;
//! if !shown.has_second(&revealed) {
//!     shown.keep(revealed)?;
//!     disk.change(alloc, &change)?;
//! }
//! ```
#![tactic(auto)]

mod contents;
mod linked;
mod over;
mod revealed;
mod shown;
mod shown_file;
mod sight;
mod touched;
mod watched;

pub use revealed::Revealed;
pub use shown::Shown;
