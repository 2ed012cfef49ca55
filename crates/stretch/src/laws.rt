// The theorems on the tokens of a stretch, each as the contract of a function.
ghost use Rattle.stretch.specs.Laws.{EachStretchHasOneListOfTokens, TokensAreTheStretch, TokensAreFramesAndARemnant, TokensTellTheReading};

pub fn one_list_of_tokens()
    ensures { EachStretchHasOneListOfTokens }
{}

pub fn tokens_are_the_stretch()
    ensures { TokensAreTheStretch }
{}

pub fn tokens_are_frames_and_a_remnant()
    ensures { TokensAreFramesAndARemnant }
{}

pub fn tokens_tell_the_reading()
    ensures { TokensTellTheReading }
{}
