//! Each registered scheme under its own name.

use super::Scheme;
use super::microsoft::MicrosoftScheme;
use super::registered::RegisteredScheme;

#[rattlefmt::skip]
impl Scheme<'static> {
    // schemes.tsv: constants
    /// `aaa`
    pub const AAA: Scheme<'static> = Scheme::Registered(RegisteredScheme::AAA);
    /// `aaas`
    pub const AAAS: Scheme<'static> = Scheme::Registered(RegisteredScheme::AAAS);
    /// `about`
    pub const About: Scheme<'static> = Scheme::Registered(RegisteredScheme::About);
    /// `acap`
    pub const ACAP: Scheme<'static> = Scheme::Registered(RegisteredScheme::ACAP);
    /// `acat`
    pub const ACCT: Scheme<'static> = Scheme::Registered(RegisteredScheme::ACCT);
    /// `acr`
    pub const ACR: Scheme<'static> = Scheme::Registered(RegisteredScheme::ACR);
    /// `adiumxtra`
    pub const AdiumXtra: Scheme<'static> = Scheme::Registered(RegisteredScheme::AdiumXtra);
    /// `afp`
    pub const AFP: Scheme<'static> = Scheme::Registered(RegisteredScheme::AFP);
    /// `afs`
    pub const AFS: Scheme<'static> = Scheme::Registered(RegisteredScheme::AFS);
    /// `aim`
    pub const AIM: Scheme<'static> = Scheme::Registered(RegisteredScheme::AIM);
    /// `amss`
    pub const AMSS: Scheme<'static> = Scheme::Registered(RegisteredScheme::AMSS);
    /// `android`
    pub const Android: Scheme<'static> = Scheme::Registered(RegisteredScheme::Android);
    /// `appdata`
    pub const AppData: Scheme<'static> = Scheme::Registered(RegisteredScheme::AppData);
    /// `apt`
    pub const APT: Scheme<'static> = Scheme::Registered(RegisteredScheme::APT);
    /// `attachment`
    pub const Attachment: Scheme<'static> = Scheme::Registered(RegisteredScheme::Attachment);
    /// `aw`
    pub const AW: Scheme<'static> = Scheme::Registered(RegisteredScheme::AW);
    /// `barion`
    pub const Barion: Scheme<'static> = Scheme::Registered(RegisteredScheme::Barion);
    /// `beshare`
    pub const BeShare: Scheme<'static> = Scheme::Registered(RegisteredScheme::BeShare);
    /// `bitcoin`
    pub const Bitcoin: Scheme<'static> = Scheme::Registered(RegisteredScheme::Bitcoin);
    /// `bitcoincash`
    pub const BitcoinCash: Scheme<'static> = Scheme::Registered(RegisteredScheme::BitcoinCash);
    /// `blob`
    pub const Blob: Scheme<'static> = Scheme::Registered(RegisteredScheme::Blob);
    /// `bolo`
    pub const Bolo: Scheme<'static> = Scheme::Registered(RegisteredScheme::Bolo);
    /// `browserext`
    pub const BrowserExt: Scheme<'static> = Scheme::Registered(RegisteredScheme::BrowserExt);
    /// `calculator`
    pub const Calculator: Scheme<'static> = Scheme::Registered(RegisteredScheme::Calculator);
    /// `callto`
    pub const CallTo: Scheme<'static> = Scheme::Registered(RegisteredScheme::CallTo);
    /// `cap`
    pub const CAP: Scheme<'static> = Scheme::Registered(RegisteredScheme::CAP);
    /// `cast`
    pub const Cast: Scheme<'static> = Scheme::Registered(RegisteredScheme::Cast);
    /// `casts`
    pub const Casts: Scheme<'static> = Scheme::Registered(RegisteredScheme::Casts);
    /// `chrome`
    pub const Chrome: Scheme<'static> = Scheme::Registered(RegisteredScheme::Chrome);
    /// `chrome-extension`
    pub const ChromeExtension: Scheme<'static> = Scheme::Registered(RegisteredScheme::ChromeExtension);
    /// `cid`
    pub const CID: Scheme<'static> = Scheme::Registered(RegisteredScheme::CID);
    /// `coap`
    pub const CoAP: Scheme<'static> = Scheme::Registered(RegisteredScheme::CoAP);
    /// `coap+tcp`
    pub const CoAPTCP: Scheme<'static> = Scheme::Registered(RegisteredScheme::CoAPTCP);
    /// `coap+ws`
    pub const CoAPWS: Scheme<'static> = Scheme::Registered(RegisteredScheme::CoAPWS);
    /// `coaps`
    pub const CoAPS: Scheme<'static> = Scheme::Registered(RegisteredScheme::CoAPS);
    /// `coaps+tcp`
    pub const CoAPSTCP: Scheme<'static> = Scheme::Registered(RegisteredScheme::CoAPSTCP);
    /// `coaps+ws`
    pub const CoAPSWS: Scheme<'static> = Scheme::Registered(RegisteredScheme::CoAPSWS);
    /// `com-eventbrite-attendee`
    pub const ComEventBriteAttendee: Scheme<'static> = Scheme::Registered(RegisteredScheme::ComEventBriteAttendee);
    /// `content`
    pub const Content: Scheme<'static> = Scheme::Registered(RegisteredScheme::Content);
    /// `conti`
    pub const Conti: Scheme<'static> = Scheme::Registered(RegisteredScheme::Conti);
    /// `crid`
    pub const CRID: Scheme<'static> = Scheme::Registered(RegisteredScheme::CRID);
    /// `cvs`
    pub const CVS: Scheme<'static> = Scheme::Registered(RegisteredScheme::CVS);
    /// `dab`
    pub const DAB: Scheme<'static> = Scheme::Registered(RegisteredScheme::DAB);
    /// `data`
    pub const Data: Scheme<'static> = Scheme::Registered(RegisteredScheme::Data);
    /// `dav`
    pub const DAV: Scheme<'static> = Scheme::Registered(RegisteredScheme::DAV);
    /// `diaspora`
    pub const Diaspora: Scheme<'static> = Scheme::Registered(RegisteredScheme::Diaspora);
    /// `dict`
    pub const DICT: Scheme<'static> = Scheme::Registered(RegisteredScheme::DICT);
    /// `did`
    pub const DID: Scheme<'static> = Scheme::Registered(RegisteredScheme::DID);
    /// `dis`
    pub const DIS: Scheme<'static> = Scheme::Registered(RegisteredScheme::DIS);
    /// `dlna-playcontainer`
    pub const DLNAPlayContainer: Scheme<'static> = Scheme::Registered(RegisteredScheme::DLNAPlayContainer);
    /// `dlna-playsingle`
    pub const DLNAPlaySingle: Scheme<'static> = Scheme::Registered(RegisteredScheme::DLNAPlaySingle);
    /// `dns`
    pub const DNS: Scheme<'static> = Scheme::Registered(RegisteredScheme::DNS);
    /// `dntp`
    pub const DNTP: Scheme<'static> = Scheme::Registered(RegisteredScheme::DNTP);
    /// `dpp`
    pub const DPP: Scheme<'static> = Scheme::Registered(RegisteredScheme::DPP);
    /// `drm`
    pub const DRM: Scheme<'static> = Scheme::Registered(RegisteredScheme::DRM);
    /// `drop`
    pub const Drop: Scheme<'static> = Scheme::Registered(RegisteredScheme::Drop);
    /// `dtn`
    pub const DTN: Scheme<'static> = Scheme::Registered(RegisteredScheme::DTN);
    /// `dvb`
    pub const DVB: Scheme<'static> = Scheme::Registered(RegisteredScheme::DVB);
    /// `ed2k`
    pub const ED2K: Scheme<'static> = Scheme::Registered(RegisteredScheme::ED2K);
    /// `elsi`
    pub const ELSI: Scheme<'static> = Scheme::Registered(RegisteredScheme::ELSI);
    /// `example`
    pub const Example: Scheme<'static> = Scheme::Registered(RegisteredScheme::Example);
    /// `facetime`
    pub const FaceTime: Scheme<'static> = Scheme::Registered(RegisteredScheme::FaceTime);
    /// `fax`
    pub const Fax: Scheme<'static> = Scheme::Registered(RegisteredScheme::Fax);
    /// `feed`
    pub const Feed: Scheme<'static> = Scheme::Registered(RegisteredScheme::Feed);
    /// `feedready`
    pub const FeedReady: Scheme<'static> = Scheme::Registered(RegisteredScheme::FeedReady);
    /// `file`
    pub const File: Scheme<'static> = Scheme::Registered(RegisteredScheme::File);
    /// `filesystem`
    pub const FileSystem: Scheme<'static> = Scheme::Registered(RegisteredScheme::FileSystem);
    /// `finger`
    pub const Finger: Scheme<'static> = Scheme::Registered(RegisteredScheme::Finger);
    /// `fish`
    pub const Fish: Scheme<'static> = Scheme::Registered(RegisteredScheme::Fish);
    /// `fm`
    pub const FM: Scheme<'static> = Scheme::Registered(RegisteredScheme::FM);
    /// `ftp`
    pub const FTP: Scheme<'static> = Scheme::Registered(RegisteredScheme::FTP);
    /// `fuchsia-pkg`
    pub const FuchsiaPkg: Scheme<'static> = Scheme::Registered(RegisteredScheme::FuchsiaPkg);
    /// `geo`
    pub const Geo: Scheme<'static> = Scheme::Registered(RegisteredScheme::Geo);
    /// `gg`
    pub const GG: Scheme<'static> = Scheme::Registered(RegisteredScheme::GG);
    /// `git`
    pub const Git: Scheme<'static> = Scheme::Registered(RegisteredScheme::Git);
    /// `gizmoproject`
    pub const GizmoProject: Scheme<'static> = Scheme::Registered(RegisteredScheme::GizmoProject);
    /// `go`
    pub const Go: Scheme<'static> = Scheme::Registered(RegisteredScheme::Go);
    /// `gopher`
    pub const Gopher: Scheme<'static> = Scheme::Registered(RegisteredScheme::Gopher);
    /// `graph`
    pub const Graph: Scheme<'static> = Scheme::Registered(RegisteredScheme::Graph);
    /// `gtalk`
    pub const GTalk: Scheme<'static> = Scheme::Registered(RegisteredScheme::GTalk);
    /// `h323`
    pub const H323: Scheme<'static> = Scheme::Registered(RegisteredScheme::H323);
    /// `ham`
    pub const HAM: Scheme<'static> = Scheme::Registered(RegisteredScheme::HAM);
    /// `hcap`
    pub const HCAP: Scheme<'static> = Scheme::Registered(RegisteredScheme::HCAP);
    /// `hcp`
    pub const HCP: Scheme<'static> = Scheme::Registered(RegisteredScheme::HCP);
    /// `http`
    pub const HTTP: Scheme<'static> = Scheme::Registered(RegisteredScheme::HTTP);
    /// `https`
    pub const HTTPS: Scheme<'static> = Scheme::Registered(RegisteredScheme::HTTPS);
    /// `hxxp`
    pub const HXXP: Scheme<'static> = Scheme::Registered(RegisteredScheme::HXXP);
    /// `hxxps`
    pub const HXXPS: Scheme<'static> = Scheme::Registered(RegisteredScheme::HXXPS);
    /// `hydrazone`
    pub const HydraZone: Scheme<'static> = Scheme::Registered(RegisteredScheme::HydraZone);
    /// `iax`
    pub const IAX: Scheme<'static> = Scheme::Registered(RegisteredScheme::IAX);
    /// `icap`
    pub const ICAP: Scheme<'static> = Scheme::Registered(RegisteredScheme::ICAP);
    /// `icon`
    pub const Icon: Scheme<'static> = Scheme::Registered(RegisteredScheme::Icon);
    /// `im`
    pub const IM: Scheme<'static> = Scheme::Registered(RegisteredScheme::IM);
    /// `imap`
    pub const IMAP: Scheme<'static> = Scheme::Registered(RegisteredScheme::IMAP);
    /// `info`
    pub const Info: Scheme<'static> = Scheme::Registered(RegisteredScheme::Info);
    /// `iotdisc`
    pub const IoTDisc: Scheme<'static> = Scheme::Registered(RegisteredScheme::IoTDisc);
    /// `ipn`
    pub const IPN: Scheme<'static> = Scheme::Registered(RegisteredScheme::IPN);
    /// `ipp`
    pub const IPP: Scheme<'static> = Scheme::Registered(RegisteredScheme::IPP);
    /// `ipps`
    pub const IPPS: Scheme<'static> = Scheme::Registered(RegisteredScheme::IPPS);
    /// `irc`
    pub const IRC: Scheme<'static> = Scheme::Registered(RegisteredScheme::IRC);
    /// `irc6`
    pub const IRC6: Scheme<'static> = Scheme::Registered(RegisteredScheme::IRC6);
    /// `ircs`
    pub const IRCS: Scheme<'static> = Scheme::Registered(RegisteredScheme::IRCS);
    /// `iris`
    pub const IRIS: Scheme<'static> = Scheme::Registered(RegisteredScheme::IRIS);
    /// `iris.beep`
    pub const IRISBEEP: Scheme<'static> = Scheme::Registered(RegisteredScheme::IRISBEEP);
    /// `iris.lwz`
    pub const IRISLWZ: Scheme<'static> = Scheme::Registered(RegisteredScheme::IRISLWZ);
    /// `iris.xpc`
    pub const IRISXPC: Scheme<'static> = Scheme::Registered(RegisteredScheme::IRISXPC);
    /// `iris.xpcs`
    pub const IRISXPCS: Scheme<'static> = Scheme::Registered(RegisteredScheme::IRISXPCS);
    /// `isostore`
    pub const IsoStore: Scheme<'static> = Scheme::Registered(RegisteredScheme::IsoStore);
    /// `itms`
    pub const ITMS: Scheme<'static> = Scheme::Registered(RegisteredScheme::ITMS);
    /// `jabber`
    pub const Jabber: Scheme<'static> = Scheme::Registered(RegisteredScheme::Jabber);
    /// `jar`
    pub const JAR: Scheme<'static> = Scheme::Registered(RegisteredScheme::JAR);
    /// `jms`
    pub const JMS: Scheme<'static> = Scheme::Registered(RegisteredScheme::JMS);
    /// `keyparc`
    pub const KeyParc: Scheme<'static> = Scheme::Registered(RegisteredScheme::KeyParc);
    /// `lastfm`
    pub const LastFM: Scheme<'static> = Scheme::Registered(RegisteredScheme::LastFM);
    /// `ldap`
    pub const LDAP: Scheme<'static> = Scheme::Registered(RegisteredScheme::LDAP);
    /// `ldaps`
    pub const LDAPS: Scheme<'static> = Scheme::Registered(RegisteredScheme::LDAPS);
    /// `lorawan`
    pub const LoRaWAN: Scheme<'static> = Scheme::Registered(RegisteredScheme::LoRaWAN);
    /// `lvlt`
    pub const LVLT: Scheme<'static> = Scheme::Registered(RegisteredScheme::LVLT);
    /// `magnet`
    pub const Magnet: Scheme<'static> = Scheme::Registered(RegisteredScheme::Magnet);
    /// `mailserver`
    pub const MailServer: Scheme<'static> = Scheme::Registered(RegisteredScheme::MailServer);
    /// `mailto`
    pub const MailTo: Scheme<'static> = Scheme::Registered(RegisteredScheme::MailTo);
    /// `maps`
    pub const Maps: Scheme<'static> = Scheme::Registered(RegisteredScheme::Maps);
    /// `market`
    pub const Market: Scheme<'static> = Scheme::Registered(RegisteredScheme::Market);
    /// `message`
    pub const Message: Scheme<'static> = Scheme::Registered(RegisteredScheme::Message);
    /// `microsoft.windows.camera`
    pub const MicrosoftWindowsCamera: Scheme<'static> = Scheme::Registered(RegisteredScheme::MicrosoftWindowsCamera);
    /// `microsoft.windows.camera.multipicker`
    pub const MicrosoftWindowsCameraMultiPicker: Scheme<'static> = Scheme::Registered(RegisteredScheme::MicrosoftWindowsCameraMultiPicker);
    /// `microsoft.windows.camera.picker`
    pub const MicrosoftWindowsCameraPicker: Scheme<'static> = Scheme::Registered(RegisteredScheme::MicrosoftWindowsCameraPicker);
    /// `mid`
    pub const MID: Scheme<'static> = Scheme::Registered(RegisteredScheme::MID);
    /// `mms`
    pub const MMS: Scheme<'static> = Scheme::Registered(RegisteredScheme::MMS);
    /// `modem`
    pub const Modem: Scheme<'static> = Scheme::Registered(RegisteredScheme::Modem);
    /// `mongodb`
    pub const MongoDB: Scheme<'static> = Scheme::Registered(RegisteredScheme::MongoDB);
    /// `moz`
    pub const Moz: Scheme<'static> = Scheme::Registered(RegisteredScheme::Moz);
    /// `ms-access`
    pub const MSAccess: Scheme<'static> = Scheme::Registered(RegisteredScheme::Microsoft(MicrosoftScheme::MSAccess));
    /// `ms-browser-extension`
    pub const MSBrowserExtension: Scheme<'static> = Scheme::Registered(RegisteredScheme::Microsoft(MicrosoftScheme::MSBrowserExtension));
    /// `ms-calculator`
    pub const MSCalculator: Scheme<'static> = Scheme::Registered(RegisteredScheme::Microsoft(MicrosoftScheme::MSCalculator));
    /// `ms-drive-to`
    pub const MSDriveTo: Scheme<'static> = Scheme::Registered(RegisteredScheme::Microsoft(MicrosoftScheme::MSDriveTo));
    /// `ms-enrollment`
    pub const MSEnrollment: Scheme<'static> = Scheme::Registered(RegisteredScheme::Microsoft(MicrosoftScheme::MSEnrollment));
    /// `ms-excel`
    pub const MSExcel: Scheme<'static> = Scheme::Registered(RegisteredScheme::Microsoft(MicrosoftScheme::MSExcel));
    /// `ms-eyecontrolspeech`
    pub const MSEyeControlSpeech: Scheme<'static> = Scheme::Registered(RegisteredScheme::Microsoft(MicrosoftScheme::MSEyeControlSpeech));
    /// `ms-gamebaresrvices`
    pub const MSGameBarServices: Scheme<'static> = Scheme::Registered(RegisteredScheme::Microsoft(MicrosoftScheme::MSGameBarServices));
    /// `ms-gamingoverlay`
    pub const MSGamingOverlay: Scheme<'static> = Scheme::Registered(RegisteredScheme::Microsoft(MicrosoftScheme::MSGamingOverlay));
    /// `ms-getoffice`
    pub const MSGetOffice: Scheme<'static> = Scheme::Registered(RegisteredScheme::Microsoft(MicrosoftScheme::MSGetOffice));
    /// `ms-help`
    pub const MSHelp: Scheme<'static> = Scheme::Registered(RegisteredScheme::Microsoft(MicrosoftScheme::MSHelp));
    /// `ms-infopath`
    pub const MSInfoPath: Scheme<'static> = Scheme::Registered(RegisteredScheme::Microsoft(MicrosoftScheme::MSInfoPath));
    /// `ms-inputapp`
    pub const MSInputApp: Scheme<'static> = Scheme::Registered(RegisteredScheme::Microsoft(MicrosoftScheme::MSInputApp));
    /// `ms-lockscreencomponent-config`
    pub const MSLockScreenComponentConfig: Scheme<'static> = Scheme::Registered(RegisteredScheme::Microsoft(MicrosoftScheme::MSLockScreenComponentConfig));
    /// `ms-media-stream-id`
    pub const MSMediaStreamID: Scheme<'static> = Scheme::Registered(RegisteredScheme::Microsoft(MicrosoftScheme::MSMediaStreamID));
    /// `ms-mixedrealitycapture`
    pub const MSMixedRealityCapture: Scheme<'static> = Scheme::Registered(RegisteredScheme::Microsoft(MicrosoftScheme::MSMixedRealityCapture));
    /// `ms-officeapp`
    pub const MSOfficeApp: Scheme<'static> = Scheme::Registered(RegisteredScheme::Microsoft(MicrosoftScheme::MSOfficeApp));
    /// `ms-people`
    pub const MSPeople: Scheme<'static> = Scheme::Registered(RegisteredScheme::Microsoft(MicrosoftScheme::MSPeople));
    /// `ms-powerpoint`
    pub const MSPowerPoint: Scheme<'static> = Scheme::Registered(RegisteredScheme::Microsoft(MicrosoftScheme::MSPowerPoint));
    /// `ms-project`
    pub const MSProject: Scheme<'static> = Scheme::Registered(RegisteredScheme::Microsoft(MicrosoftScheme::MSProject));
    /// `ms-publisher`
    pub const MSPublisher: Scheme<'static> = Scheme::Registered(RegisteredScheme::Microsoft(MicrosoftScheme::MSPublisher));
    /// `ms-restoretabcompanion`
    pub const MSRestoreTabCompanion: Scheme<'static> = Scheme::Registered(RegisteredScheme::Microsoft(MicrosoftScheme::MSRestoreTabCompanion));
    /// `ms-screenclip`
    pub const MSScreenClip: Scheme<'static> = Scheme::Registered(RegisteredScheme::Microsoft(MicrosoftScheme::MSScreenClip));
    /// `ms-screensketch`
    pub const MSScreenSketch: Scheme<'static> = Scheme::Registered(RegisteredScheme::Microsoft(MicrosoftScheme::MSScreenSketch));
    /// `ms-search`
    pub const MSSearch: Scheme<'static> = Scheme::Registered(RegisteredScheme::Microsoft(MicrosoftScheme::MSSearch));
    /// `ms-search-repair`
    pub const MSSearchRepair: Scheme<'static> = Scheme::Registered(RegisteredScheme::Microsoft(MicrosoftScheme::MSSearchRepair));
    /// `ms-secondary-screen-controller`
    pub const MSSecondaryScreenController: Scheme<'static> = Scheme::Registered(RegisteredScheme::Microsoft(MicrosoftScheme::MSSecondaryScreenController));
    /// `ms-secondary-screen-setup`
    pub const MSSeocndaryScreenSetup: Scheme<'static> = Scheme::Registered(RegisteredScheme::Microsoft(MicrosoftScheme::MSSeocndaryScreenSetup));
    /// `ms-settings`
    pub const MSSettings: Scheme<'static> = Scheme::Registered(RegisteredScheme::Microsoft(MicrosoftScheme::MSSettings));
    /// `ms-settings-airplanemode`
    pub const MSSettingsAirplaneMode: Scheme<'static> = Scheme::Registered(RegisteredScheme::Microsoft(MicrosoftScheme::MSSettingsAirplaneMode));
    /// `ms-settings-bluetooth`
    pub const MSSettingsBluetooth: Scheme<'static> = Scheme::Registered(RegisteredScheme::Microsoft(MicrosoftScheme::MSSettingsBluetooth));
    /// `ms-settings-camera`
    pub const MSSettingsCamera: Scheme<'static> = Scheme::Registered(RegisteredScheme::Microsoft(MicrosoftScheme::MSSettingsCamera));
    /// `ms-settings-cellular`
    pub const MSSettingsCellular: Scheme<'static> = Scheme::Registered(RegisteredScheme::Microsoft(MicrosoftScheme::MSSettingsCellular));
    /// `ms-settings-cloudstorage`
    pub const MSSettingsCloudStorage: Scheme<'static> = Scheme::Registered(RegisteredScheme::Microsoft(MicrosoftScheme::MSSettingsCloudStorage));
    /// `ms-settings-connectabledevices`
    pub const MSSettingsConnectableDevices: Scheme<'static> = Scheme::Registered(RegisteredScheme::Microsoft(MicrosoftScheme::MSSettingsConnectableDevices));
    /// `ms-settings-displays-topology`
    pub const MSSettingsDisplaysTopology: Scheme<'static> = Scheme::Registered(RegisteredScheme::Microsoft(MicrosoftScheme::MSSettingsDisplaysTopology));
    /// `ms-settings-emailandaccounts`
    pub const MSSettingsEmailAndAccounts: Scheme<'static> = Scheme::Registered(RegisteredScheme::Microsoft(MicrosoftScheme::MSSettingsEmailAndAccounts));
    /// `ms-settings-language`
    pub const MSSettingsLanguage: Scheme<'static> = Scheme::Registered(RegisteredScheme::Microsoft(MicrosoftScheme::MSSettingsLanguage));
    /// `ms-settings-location`
    pub const MSSettingsLocation: Scheme<'static> = Scheme::Registered(RegisteredScheme::Microsoft(MicrosoftScheme::MSSettingsLocation));
    /// `ms-settings-lock`
    pub const MSSettingsLock: Scheme<'static> = Scheme::Registered(RegisteredScheme::Microsoft(MicrosoftScheme::MSSettingsLock));
    /// `ms-settings-nfctransactions`
    pub const MSSettingsNFCTransactions: Scheme<'static> = Scheme::Registered(RegisteredScheme::Microsoft(MicrosoftScheme::MSSettingsNFCTransactions));
    /// `ms-settings-notifications`
    pub const MSSettingsNotifications: Scheme<'static> = Scheme::Registered(RegisteredScheme::Microsoft(MicrosoftScheme::MSSettingsNotifications));
    /// `ms-settings-power`
    pub const MSSettingsPower: Scheme<'static> = Scheme::Registered(RegisteredScheme::Microsoft(MicrosoftScheme::MSSettingsPower));
    /// `ms-settings-privacy`
    pub const MSSettingsPrivacy: Scheme<'static> = Scheme::Registered(RegisteredScheme::Microsoft(MicrosoftScheme::MSSettingsPrivacy));
    /// `ms-settings-proximity`
    pub const MSSettingsProximity: Scheme<'static> = Scheme::Registered(RegisteredScheme::Microsoft(MicrosoftScheme::MSSettingsProximity));
    /// `ms-settings-screenrotation`
    pub const MSSettingsScreenRotation: Scheme<'static> = Scheme::Registered(RegisteredScheme::Microsoft(MicrosoftScheme::MSSettingsScreenRotation));
    /// `ms-settings-wifi`
    pub const MSSettingsWiFi: Scheme<'static> = Scheme::Registered(RegisteredScheme::Microsoft(MicrosoftScheme::MSSettingsWiFi));
    /// `ms-settings-workplace`
    pub const MSSettingsWorkplace: Scheme<'static> = Scheme::Registered(RegisteredScheme::Microsoft(MicrosoftScheme::MSSettingsWorkplace));
    /// `ms-spd`
    pub const MSSPD: Scheme<'static> = Scheme::Registered(RegisteredScheme::Microsoft(MicrosoftScheme::MSSPD));
    /// `ms-sttoverlay`
    pub const MSSTTOverlay: Scheme<'static> = Scheme::Registered(RegisteredScheme::Microsoft(MicrosoftScheme::MSSTTOverlay));
    /// `ms-transit-to`
    pub const MSTransitTo: Scheme<'static> = Scheme::Registered(RegisteredScheme::Microsoft(MicrosoftScheme::MSTransitTo));
    /// `ms-useractivityset`
    pub const MSUserActivitySet: Scheme<'static> = Scheme::Registered(RegisteredScheme::Microsoft(MicrosoftScheme::MSUserActivitySet));
    /// `ms-virtualtouchpad`
    pub const MSVirtualTouchPad: Scheme<'static> = Scheme::Registered(RegisteredScheme::Microsoft(MicrosoftScheme::MSVirtualTouchPad));
    /// `ms-visio`
    pub const MSVisio: Scheme<'static> = Scheme::Registered(RegisteredScheme::Microsoft(MicrosoftScheme::MSVisio));
    /// `ms-walk-to`
    pub const MSWalkTo: Scheme<'static> = Scheme::Registered(RegisteredScheme::Microsoft(MicrosoftScheme::MSWalkTo));
    /// `ms-whiteboard`
    pub const MSWhiteboard: Scheme<'static> = Scheme::Registered(RegisteredScheme::Microsoft(MicrosoftScheme::MSWhiteboard));
    /// `ms-whiteboard-cmd`
    pub const MSWhiteboardCMD: Scheme<'static> = Scheme::Registered(RegisteredScheme::Microsoft(MicrosoftScheme::MSWhiteboardCMD));
    /// `ms-word`
    pub const MSWord: Scheme<'static> = Scheme::Registered(RegisteredScheme::Microsoft(MicrosoftScheme::MSWord));
    /// `msnim`
    pub const MSNIM: Scheme<'static> = Scheme::Registered(RegisteredScheme::MSNIM);
    /// `msrp`
    pub const MSRP: Scheme<'static> = Scheme::Registered(RegisteredScheme::MSRP);
    /// `msrps`
    pub const MSRPS: Scheme<'static> = Scheme::Registered(RegisteredScheme::MSRPS);
    /// `mss`
    pub const MSS: Scheme<'static> = Scheme::Registered(RegisteredScheme::MSS);
    /// `mtqp`
    pub const MTQP: Scheme<'static> = Scheme::Registered(RegisteredScheme::MTQP);
    /// `mumble`
    pub const Mumble: Scheme<'static> = Scheme::Registered(RegisteredScheme::Mumble);
    /// `mupdate`
    pub const MUpdate: Scheme<'static> = Scheme::Registered(RegisteredScheme::MUpdate);
    /// `mvn`
    pub const MVN: Scheme<'static> = Scheme::Registered(RegisteredScheme::MVN);
    /// `news`
    pub const News: Scheme<'static> = Scheme::Registered(RegisteredScheme::News);
    /// `nfs`
    pub const NFS: Scheme<'static> = Scheme::Registered(RegisteredScheme::NFS);
    /// `ni`
    pub const NI: Scheme<'static> = Scheme::Registered(RegisteredScheme::NI);
    /// `nih`
    pub const NIH: Scheme<'static> = Scheme::Registered(RegisteredScheme::NIH);
    /// `nntp`
    pub const NNTP: Scheme<'static> = Scheme::Registered(RegisteredScheme::NNTP);
    /// `notes`
    pub const Notes: Scheme<'static> = Scheme::Registered(RegisteredScheme::Notes);
    /// `ocf`
    pub const OCF: Scheme<'static> = Scheme::Registered(RegisteredScheme::OCF);
    /// `oid`
    pub const OID: Scheme<'static> = Scheme::Registered(RegisteredScheme::OID);
    /// `onenote`
    pub const OneNote: Scheme<'static> = Scheme::Registered(RegisteredScheme::OneNote);
    /// `onenote-cmd`
    pub const OneNoteCMD: Scheme<'static> = Scheme::Registered(RegisteredScheme::OneNoteCMD);
    /// `opaquelocktoken`
    pub const OpaqueLockToken: Scheme<'static> = Scheme::Registered(RegisteredScheme::OpaqueLockToken);
    /// `openpgp4fpr`
    pub const OpenPGP4FPR: Scheme<'static> = Scheme::Registered(RegisteredScheme::OpenPGP4FPR);
    /// `pack`
    pub const Pack: Scheme<'static> = Scheme::Registered(RegisteredScheme::Pack);
    /// `palm`
    pub const Palm: Scheme<'static> = Scheme::Registered(RegisteredScheme::Palm);
    /// `paparazzi`
    pub const Paparazzi: Scheme<'static> = Scheme::Registered(RegisteredScheme::Paparazzi);
    /// `pkcs11`
    pub const PKCS11: Scheme<'static> = Scheme::Registered(RegisteredScheme::PKCS11);
    /// `platform`
    pub const Platform: Scheme<'static> = Scheme::Registered(RegisteredScheme::Platform);
    /// `pop`
    pub const POP: Scheme<'static> = Scheme::Registered(RegisteredScheme::POP);
    /// `pres`
    pub const Pres: Scheme<'static> = Scheme::Registered(RegisteredScheme::Pres);
    /// `prospero`
    pub const Prospero: Scheme<'static> = Scheme::Registered(RegisteredScheme::Prospero);
    /// `proxy`
    pub const Proxy: Scheme<'static> = Scheme::Registered(RegisteredScheme::Proxy);
    /// `psyc`
    pub const PSYC: Scheme<'static> = Scheme::Registered(RegisteredScheme::PSYC);
    /// `pwid`
    pub const PWID: Scheme<'static> = Scheme::Registered(RegisteredScheme::PWID);
    /// `qb`
    pub const QB: Scheme<'static> = Scheme::Registered(RegisteredScheme::QB);
    /// `query`
    pub const Query: Scheme<'static> = Scheme::Registered(RegisteredScheme::Query);
    /// `redis`
    pub const Redis: Scheme<'static> = Scheme::Registered(RegisteredScheme::Redis);
    /// `rediss`
    pub const RedisS: Scheme<'static> = Scheme::Registered(RegisteredScheme::RedisS);
    /// `reload`
    pub const Reload: Scheme<'static> = Scheme::Registered(RegisteredScheme::Reload);
    /// `res`
    pub const Res: Scheme<'static> = Scheme::Registered(RegisteredScheme::Res);
    /// `resource`
    pub const Resource: Scheme<'static> = Scheme::Registered(RegisteredScheme::Resource);
    /// `rmi`
    pub const RMI: Scheme<'static> = Scheme::Registered(RegisteredScheme::RMI);
    /// `rsync`
    pub const RSync: Scheme<'static> = Scheme::Registered(RegisteredScheme::RSync);
    /// `rtmfp`
    pub const RTMFP: Scheme<'static> = Scheme::Registered(RegisteredScheme::RTMFP);
    /// `rtmp`
    pub const RTMP: Scheme<'static> = Scheme::Registered(RegisteredScheme::RTMP);
    /// `rtsp`
    pub const RTSP: Scheme<'static> = Scheme::Registered(RegisteredScheme::RTSP);
    /// `rtsps`
    pub const RTSPS: Scheme<'static> = Scheme::Registered(RegisteredScheme::RTSPS);
    /// `rtspu`
    pub const RTSPU: Scheme<'static> = Scheme::Registered(RegisteredScheme::RTSPU);
    /// `secondlife`
    pub const SecondLife: Scheme<'static> = Scheme::Registered(RegisteredScheme::SecondLife);
    /// `service`
    pub const Service: Scheme<'static> = Scheme::Registered(RegisteredScheme::Service);
    /// `session`
    pub const Session: Scheme<'static> = Scheme::Registered(RegisteredScheme::Session);
    /// `sftp`
    pub const SFTP: Scheme<'static> = Scheme::Registered(RegisteredScheme::SFTP);
    /// `sgn`
    pub const SGN: Scheme<'static> = Scheme::Registered(RegisteredScheme::SGN);
    /// `shttp`
    pub const SHTTP: Scheme<'static> = Scheme::Registered(RegisteredScheme::SHTTP);
    /// `sieve`
    pub const Sieve: Scheme<'static> = Scheme::Registered(RegisteredScheme::Sieve);
    /// `simpleledger`
    pub const SimpleLedger: Scheme<'static> = Scheme::Registered(RegisteredScheme::SimpleLedger);
    /// `sip`
    pub const SIP: Scheme<'static> = Scheme::Registered(RegisteredScheme::SIP);
    /// `sips`
    pub const SIPS: Scheme<'static> = Scheme::Registered(RegisteredScheme::SIPS);
    /// `skype`
    pub const Skype: Scheme<'static> = Scheme::Registered(RegisteredScheme::Skype);
    /// `smb`
    pub const SMB: Scheme<'static> = Scheme::Registered(RegisteredScheme::SMB);
    /// `sms`
    pub const SMS: Scheme<'static> = Scheme::Registered(RegisteredScheme::SMS);
    /// `smtp`
    pub const SMTP: Scheme<'static> = Scheme::Registered(RegisteredScheme::SMTP);
    /// `snews`
    pub const SNews: Scheme<'static> = Scheme::Registered(RegisteredScheme::SNews);
    /// `snmp`
    pub const SNMP: Scheme<'static> = Scheme::Registered(RegisteredScheme::SNMP);
    /// `soap.beep`
    pub const SOAPBEEP: Scheme<'static> = Scheme::Registered(RegisteredScheme::SOAPBEEP);
    /// `soap.beeps`
    pub const SOAPBEEPS: Scheme<'static> = Scheme::Registered(RegisteredScheme::SOAPBEEPS);
    /// `soldat`
    pub const Soldat: Scheme<'static> = Scheme::Registered(RegisteredScheme::Soldat);
    /// `spiffe`
    pub const SPIFFE: Scheme<'static> = Scheme::Registered(RegisteredScheme::SPIFFE);
    /// `spotify`
    pub const Spotify: Scheme<'static> = Scheme::Registered(RegisteredScheme::Spotify);
    /// `ssh`
    pub const SSH: Scheme<'static> = Scheme::Registered(RegisteredScheme::SSH);
    /// `steam`
    pub const Steam: Scheme<'static> = Scheme::Registered(RegisteredScheme::Steam);
    /// `stun`
    pub const STUN: Scheme<'static> = Scheme::Registered(RegisteredScheme::STUN);
    /// `stuns`
    pub const STUNS: Scheme<'static> = Scheme::Registered(RegisteredScheme::STUNS);
    /// `submit`
    pub const Submit: Scheme<'static> = Scheme::Registered(RegisteredScheme::Submit);
    /// `svn`
    pub const SVN: Scheme<'static> = Scheme::Registered(RegisteredScheme::SVN);
    /// `tag`
    pub const Tag: Scheme<'static> = Scheme::Registered(RegisteredScheme::Tag);
    /// `teamspeak`
    pub const TeamSpeak: Scheme<'static> = Scheme::Registered(RegisteredScheme::TeamSpeak);
    /// `tel`
    pub const Tel: Scheme<'static> = Scheme::Registered(RegisteredScheme::Tel);
    /// `teliaeid`
    pub const TeliaEID: Scheme<'static> = Scheme::Registered(RegisteredScheme::TeliaEID);
    /// `telnet`
    pub const Telnet: Scheme<'static> = Scheme::Registered(RegisteredScheme::Telnet);
    /// `tftp`
    pub const TFTP: Scheme<'static> = Scheme::Registered(RegisteredScheme::TFTP);
    /// `things`
    pub const Things: Scheme<'static> = Scheme::Registered(RegisteredScheme::Things);
    /// `thismessage`
    pub const ThisMessage: Scheme<'static> = Scheme::Registered(RegisteredScheme::ThisMessage);
    /// `tip`
    pub const TIP: Scheme<'static> = Scheme::Registered(RegisteredScheme::TIP);
    /// `tn3270`
    pub const TN3270: Scheme<'static> = Scheme::Registered(RegisteredScheme::TN3270);
    /// `tool`
    pub const Tool: Scheme<'static> = Scheme::Registered(RegisteredScheme::Tool);
    /// `turn`
    pub const TURN: Scheme<'static> = Scheme::Registered(RegisteredScheme::TURN);
    /// `turns`
    pub const TURNS: Scheme<'static> = Scheme::Registered(RegisteredScheme::TURNS);
    /// `tv`
    pub const TV: Scheme<'static> = Scheme::Registered(RegisteredScheme::TV);
    /// `udp`
    pub const UDP: Scheme<'static> = Scheme::Registered(RegisteredScheme::UDP);
    /// `unreal`
    pub const Unreal: Scheme<'static> = Scheme::Registered(RegisteredScheme::Unreal);
    /// `urn`
    pub const URN: Scheme<'static> = Scheme::Registered(RegisteredScheme::URN);
    /// `ut2004`
    pub const UT2004: Scheme<'static> = Scheme::Registered(RegisteredScheme::UT2004);
    /// `v-event`
    pub const VEvent: Scheme<'static> = Scheme::Registered(RegisteredScheme::VEvent);
    /// `vemmi`
    pub const VEMMI: Scheme<'static> = Scheme::Registered(RegisteredScheme::VEMMI);
    /// `ventrilo`
    pub const Ventrilo: Scheme<'static> = Scheme::Registered(RegisteredScheme::Ventrilo);
    /// `videotex`
    pub const Videotex: Scheme<'static> = Scheme::Registered(RegisteredScheme::Videotex);
    /// `view-source`
    pub const ViewSource: Scheme<'static> = Scheme::Registered(RegisteredScheme::ViewSource);
    /// `vnc`
    pub const VNC: Scheme<'static> = Scheme::Registered(RegisteredScheme::VNC);
    /// `wais`
    pub const WAIS: Scheme<'static> = Scheme::Registered(RegisteredScheme::WAIS);
    /// `webcal`
    pub const Webcal: Scheme<'static> = Scheme::Registered(RegisteredScheme::Webcal);
    /// `wpid`
    pub const WPID: Scheme<'static> = Scheme::Registered(RegisteredScheme::WPID);
    /// `ws`
    pub const WS: Scheme<'static> = Scheme::Registered(RegisteredScheme::WS);
    /// `wss`
    pub const WSS: Scheme<'static> = Scheme::Registered(RegisteredScheme::WSS);
    /// `wtai`
    pub const WTAI: Scheme<'static> = Scheme::Registered(RegisteredScheme::WTAI);
    /// `wyciwyg`
    pub const WYCIWYG: Scheme<'static> = Scheme::Registered(RegisteredScheme::WYCIWYG);
    /// `xcon`
    pub const XCON: Scheme<'static> = Scheme::Registered(RegisteredScheme::XCON);
    /// `xcon-userid`
    pub const XCONUserID: Scheme<'static> = Scheme::Registered(RegisteredScheme::XCONUserID);
    /// `xfire`
    pub const Xfire: Scheme<'static> = Scheme::Registered(RegisteredScheme::Xfire);
    /// `xmlrpc.beep`
    pub const XMLRPCBEEP: Scheme<'static> = Scheme::Registered(RegisteredScheme::XMLRPCBEEP);
    /// `xmlrpc.beeps`
    pub const XMLRPCBEEPS: Scheme<'static> = Scheme::Registered(RegisteredScheme::XMLRPCBEEPS);
    /// `xmpp`
    pub const XMPP: Scheme<'static> = Scheme::Registered(RegisteredScheme::XMPP);
    /// `xri`
    pub const XRI: Scheme<'static> = Scheme::Registered(RegisteredScheme::XRI);
    /// `ymsgr`
    pub const YMSGR: Scheme<'static> = Scheme::Registered(RegisteredScheme::YMSGR);
    /// `z39.50`
    pub const Z3950: Scheme<'static> = Scheme::Registered(RegisteredScheme::Z3950);
    /// `z39.50r`
    pub const Z3950R: Scheme<'static> = Scheme::Registered(RegisteredScheme::Z3950R);
    /// `z39.50s`
    pub const Z3950S: Scheme<'static> = Scheme::Registered(RegisteredScheme::Z3950S);
    // schemes.tsv: end
}
