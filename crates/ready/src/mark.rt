// Reading marks.
ghost use Rattle.std.specs.Prelude.{◌≡◌};

use docket::Docket;
use marks::MarkStore;

// An account's mark.
pub(crate) fn mark_of<S: MarkStore>(store: &S, account: u8) -> Option<Docket>
    ensures { result ≡ S.mark store.now account }
{
    let mut bytes = [0; 80];
    if !store.read(account, &mut bytes) {
        return None;
    }
    Docket::read(&bytes).ok()
}
