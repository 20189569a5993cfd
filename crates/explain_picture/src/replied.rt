//! The replies of requests.

use program_defs::Script;
use report_rules::{Reply, Report};
use std::alloc::{AllocError, Global};
use vector_stamp::Stamp;

/// The replies of a report, found by their requests. In a report that isn't right a request may have none, or more than
/// one; then the first counts.
#[derive(Clone, Copy)]
pub(crate) struct Replies<'a> {
    pub(crate) report: &'a Report,
    /// For each request of the script the place of its first reply, from 0.
    pub(crate) places: &'a [Option<u64>],
}

impl<'a> Replies<'a> {
    /// The place of a request's reply, from 0.
    pub(crate) fn place_of(&self, request: u32) -> Option<u64> {
        match self.places.get(request as usize) {
            Some(place) => *place,
            None => None,
        }
    }

    /// The reply of a request.
    pub(crate) fn reply_of(&self, request: u32) -> Option<&'a Reply> {
        let place = self.place_of(request)?;
        self.report.replies.as_slice().get(place as usize)
    }

    /// The stamp of a request.
    pub(crate) fn stamp_of(&self, request: u32) -> Option<Stamp> {
        self.reply_of(request)?.stamp
    }
}

/// For each request of the script the place of its first reply in the report, from 0.
pub(crate) fn reply_places(
    alloc: Global,
    script: &Script,
    report: &Report,
) -> Result<Vec<Option<u64>>, AllocError> {
    let mut places = Vec::new(alloc);
    for _ in script.requests.as_slice() {
        places.push(None)?;
    }
    let mut place: u64 = 0;
    for reply in report.replies.as_slice() {
        put_reply(places.as_mut_slice(), reply.request, place);
        place = place.saturating_add(1);
    }
    Ok(places)
}

fn put_reply(places: &mut [Option<u64>], request: u32, place: u64) {
    if let Some(first) = places.get_mut(request as usize) {
        if first.is_none() {
            *first = Some(place);
        }
    }
}
