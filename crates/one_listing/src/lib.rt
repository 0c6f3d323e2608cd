// What the definition of listings says of a sheet, it says of one listing only.
#![tactic(auto)]

ghost use Rattle.one_listing.specs.Listings.{OneListing};

/// A sheet has one listing: whatever the definition of listings says of it, it says of one only.
pub fn one_listing()
    ensures { OneListing }
{}
