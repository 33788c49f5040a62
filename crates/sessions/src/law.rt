//! What holds of the frames of every stream.

ghost use Rattle.std.specs.Prelude.{◌≡◌, ◌≤◌, ◌++◌, ℕ, List, Some, codes, length};
ghost use Rattle.std.specs.List.{flat_map};
ghost use Rattle.serde_json.specs.Data.{Data};
ghost use Rattle.serde_json.specs.Find.{get};
ghost use Rattle.sessions.specs.Grammar.{request_from};
ghost use Rattle.sessions.specs.OwnNames.{request_by};
ghost use Rattle.sessions.specs.declared.tenant_key.TenantKey.{TenantKey};
ghost use Rattle.sessions.specs.declared.tenant_key.TenantKey.TheVariants.{Required};
ghost use Rattle.sessions.specs.Frames.{AreBytes, AreShort, Framing, HasNoFrame, Heard, IsStreamOf, framed, frames_of, front, longest_payload, whole};

/// Pieces make no difference: in whatever order a session is fed and asked, all that it was fed is
/// the frames of the payloads that it gave, in order and each once, and then what it has still to
/// cut. And a frame that stands first is cut, whatever follows it.
pub fn frames_of_all_pieces()
    ensures heard { (fed : List ℕ) (payloads : List (List ℕ)) (left : List ℕ) → AreBytes fed
        → Heard fed payloads left → IsStreamOf fed payloads left }
    ensures cut { (payload more : List ℕ) → length payload ≤ longest_payload
        → front (framed payload ++ more) ≡ whole payload more }
{}

/// Which payloads the frames of a list of bytes are, and which bytes are behind them: what a
/// session gave of the bytes, once no whole frame stands first in what it has still to cut. Joined
/// again they are the bytes, and payloads that are written as frames are read as the same.
pub fn frames_of_bytes()
    ensures heard { (fed : List ℕ) (payloads : List (List ℕ)) (left : List ℕ)
        → Heard fed payloads left → HasNoFrame (front left)
        → frames_of fed ≡ record { payloads = payloads; rest = left } }
    ensures none_left { (bytes : List ℕ) → HasNoFrame (front (frames_of bytes).rest) }
    ensures joined { (bytes : List ℕ) → AreBytes bytes
        → IsStreamOf bytes (frames_of bytes).payloads (frames_of bytes).rest }
    ensures written { (payloads : List (List ℕ)) (rest : List ℕ) → AreShort payloads
        → HasNoFrame (front rest) → frames_of (flat_map framed payloads ++ rest)
        ≡ record { payloads = payloads; rest = rest } }
{}

/// A tenant's name that may be left out changes nothing of a request that has one, nor of the
/// reading in which it has to be there.
pub fn named_requests()
    ensures named { (key : TenantKey) (d value : Data) → get (codes "tenant") d ≡ Some value
        → request_by key d ≡ request_from d }
    ensures required { (d : Data) → request_by Required d ≡ request_from d }
{}
