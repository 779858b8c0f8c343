// What ties the definitions to the standard.
ghost use Rattle.keccak.specs.KnownOutputs.{KnownOutputs};
ghost use Rattle.keccak.specs.Rotation.{RotationMovesBits};

// Does nothing: that it is proved says that a lane rotated by n has each bit n places on, modulo 64.
pub fn rotation_moves_bits()
    ensures { RotationMovesBits }
{}

// Does nothing: that it is proved says that known outputs of SHAKE128 follow from the definitions.
pub fn known_outputs_hold()
    ensures { KnownOutputs }
{}
