//! The law of packets that are dropped.
ghost use Rattle.std.specs.Prelude.{◌≡◌, List};
ghost use Rattle.bng_meter.specs.Bucket.{Buckets, Offer, Rise, colours, colours_kept};

/// A red packet may be forgotten: a meter that each red packet leaves wholly as it was, the moment of its last packet too, gives
/// every later packet the colour that it has by the definition. So a packet that is dropped needs no note.
pub fn red_packets_need_no_note()
    ensures { (b : Buckets) (offers : List Offer) → Rise b.last offers → colours_kept b offers ≡ colours b offers }
{}
