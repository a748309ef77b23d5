//! Refusals, with their numbers and alone.

use gu_base::{AccountId, FirmId, NodeName, Number, Refusal};

/// Writes a few refusals, one with the longest firm and two with the highest number.
fn tell_refusals(rt: &impl Print, firm: FirmId, last: Number) -> bool {
    let refusals = [
        Refusal::UnknownFirm,
        Refusal::SumDiffers,
        Refusal::BadPartCount,
        Refusal::NeedsConsent(firm),
        Refusal::StandsOn(last),
        Refusal::AlreadyReversed(last),
        Refusal::NothingPending,
        Refusal::OwnAgreement,
        Refusal::BadTerms,
        Refusal::AgreementExists,
    ];
    for refusal in refusals {
        let text = refusal.text();
        if rt.println(text.as_str()).is_err() {
            return false;
        }
    }
    true
}

/// Writes a node, an account and a refusal that names the node's entry.
fn tell_shown(rt: &impl Print, node: NodeName, account: AccountId) -> bool {
    let refusal = Refusal::StandsOn(node.entry());
    println!(rt; "{node} {account} {refusal}").is_ok()
}

/// Writes texts of the base. Whether all went well.
pub(crate) fn tell(rt: &impl Print) -> bool {
    let names = (FirmId::new(b"ABCDEFGHIJKLMNOP"), Number::new(1_000_000));
    let (Some(firm), Some(last)) = names else {
        return false;
    };
    let (Some(node), Some(account)) = (NodeName::new(12, 3), AccountId::new(b"A1")) else {
        return false;
    };
    tell_refusals(rt, firm, last) && tell_shown(rt, node, account)
}
