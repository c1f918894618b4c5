// Reader and writer undo one another. The function computes nothing: its contract is the theorem.
ghost use Rattle.text.specs.RoundTrips.{TextsRoundTrip};

// A card's text fits, is read as that card, and every accepted text is written back unchanged.
pub fn texts_round_trip()
    ensures { TextsRoundTrip }
{}
