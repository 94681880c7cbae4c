// The demands of the C boundary: of a list of calls of `childbus_receive` and `childbus_read` after `childbus_fresh`, each with the state
// bytes and the flash that the last one left. The functions do nothing.
#![tactic(auto)]

ghost use Rattle.boundary_claims.specs.Met.{BoundaryMeetsDemands};
ghost use Rattle.boundary_claims.specs.Pages.{BoundaryHandedIn};
ghost use Rattle.boundary_claims.specs.Resets.{BoundaryResets};
ghost use Rattle.boundary_claims.specs.Tallies.{BoundaryCounts};
ghost use Rattle.boundary_claims.specs.Uploads.{BoundaryFinishesUploads};

// For any profile bytes, any flash, any list of such calls, with any addresses, frames and output buffers: demands 1, 2 and 3.
pub fn boundary_meets_demands()
    ensures { BoundaryMeetsDemands }
{}

// W4: what childbus_reset_running wrote, sent as a general call, makes the board of childbus_receive fresh, whatever its bytes.
pub fn boundary_resets()
    ensures { BoundaryResets }
{}

// W3: the tally's bytes over any list of childbus_receive_tally and childbus_read: each counter, and the bytes that are not the tally's.
pub fn boundary_counts()
    ensures { BoundaryCounts }
{}

// W8: state bytes, whatever page they were made under, are malformed by the profile's rule, or a finalize lays the waiting bytes at their
// own places.
pub fn boundary_handed_in()
    ensures { BoundaryHandedIn }
{}

// From any state bytes: a finished upload lays the image over the flash at O, and its count is the number of changed pages.
pub fn boundary_finishes_uploads()
    ensures { BoundaryFinishesUploads }
{}
