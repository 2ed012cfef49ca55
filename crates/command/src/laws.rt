// What holds of every command, each as the contract of a function.
ghost use Rattle.command.specs.Laws.{EachCommandMayBeSent, NoTwoCommandsAreSpelledAlike, WhatMayBeSentIsSomeCommand, EachFramePassesItsCheck, NoTwoFramesAreAlike};

// Commands and what may be sent are one to one.
pub fn commands_are_sendable()
    ensures may { EachCommandMayBeSent }
    ensures one { NoTwoCommandsAreSpelledAlike }
    ensures onto { WhatMayBeSentIsSomeCommand }
{}

pub fn command_frames_stand()
    ensures passes { EachFramePassesItsCheck }
    ensures one { NoTwoFramesAreAlike }
{}
