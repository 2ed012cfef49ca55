// Packets and accepted frames are one to one, over all kinds.
ghost use Rattle.record.specs.Laws.{EachPacketsFrameIsAccepted, NoTwoPacketsHaveOneFrame, EachAcceptedFrameIsAPackets};

pub fn frames_are_packets()
    ensures accepted { EachPacketsFrameIsAccepted }
    ensures one { NoTwoPacketsHaveOneFrame }
    ensures onto { EachAcceptedFrameIsAPackets }
{}
