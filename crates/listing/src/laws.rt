// The theorems on listings, and the worked examples, each as the contract of a function.
ghost use Rattle.listing.specs.Known.{Known};
ghost use Rattle.listing.specs.Laws.{EachStreamHasOneListing, PiecesDoNotMatter};

pub fn one_listing()
    ensures { EachStreamHasOneListing }
{}

pub fn pieces_do_not_matter()
    ensures { PiecesDoNotMatter }
{}

pub fn known_cases()
    ensures { Known }
{}
