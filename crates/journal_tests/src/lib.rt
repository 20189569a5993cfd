//! The tests of a journal and of `keep` that no text shows: bytes, disks that fail, images that a crash may leave, and
//! a file of the operating system. There is nothing but tests here.
#![tactic(auto)]

#[cfg(test)]
mod failing_calls;
#[cfg(test)]
mod file_disks;
#[cfg(test)]
mod keeping;
#[cfg(test)]
mod kept_stores;
#[cfg(test)]
mod rows;
#[cfg(test)]
mod torn_images;
