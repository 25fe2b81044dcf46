//! Why a call of a folder failed.
pub use dist_types::folder_fault::FolderFault;
